// Following as a whole (docs/RULES.md, 10.16 to 10.23).
ghost use Rattle.std.specs.Prelude.{◌≡◌};
ghost use Rattle.hint_list.specs.Adding.{Added};
ghost use Rattle.hint_following.specs.Follow.{stop_hint, opened, is_followed, follow_hints};

use courses::course::{Course, Run};
use hint_chasing::chase;
use hint_chasing::chase::{Chase, Gaps, Opening};
use hint_list::entries;
use hint_list::hint::WaitHint;
use hint_sawtooth::rounds;
use refusals::Refusal;
use shapes::vector::Vector;
use times::time::TimePoint;

// A wait at a place until t seconds, behind n hints.
#[tactic(auto, unfolding(crate::specs::Follow::stop_hint))]
fn with_stop(
    place: Vector,
    t: f64,
    obstacle: usize,
    hints: &mut [u64; 385],
    n: usize,
) -> Result<usize, Refusal>
    ensures { Added (stop_hint n place t obstacle) n hints.old hints.new result }
{
    let Ok(until) = TimePoint::from_secs_f64(t) else {
        return entries::refuse_for(hints, Refusal::Strayed, n);
    };
    let hint = WaitHint {
        place,
        until,
        obstacle,
    };
    entries::with_hint(hints, n, hint)
}

// The first wait, if there is one, and the rounds.
#[tactic(auto, unfolding(crate::specs::Follow::opened))]
fn open(
    agent: Course,
    leg: Run,
    chase: Chase,
    obstacle: usize,
    first: Opening,
    hints: &mut [u64; 385],
    n: usize,
) -> Result<usize, Refusal>
    ensures { Added (opened agent leg chase obstacle first n) n hints.old hints.new result }
{
    match first {
        Opening::Goes(s, t) => rounds::rounds(agent, leg, chase, obstacle, s, t, hints, n),
        Opening::Waits(place, s, t) => {
            let m = with_stop(place, t, obstacle, hints, n)?;
            rounds::rounds(agent, leg, chase, obstacle, s, t, hints, m)
        }
    }
}

// Whether a leg that is first seen `apart` from the agent's start is followed: not within the critical distance, and not behind.
#[tactic(auto, unfolding(crate::specs::Follow::is_followed))]
fn is_followed(agent: Course, gaps: Gaps, apart: Vector) -> bool
    ensures { result ≡ is_followed agent gaps apart }
{
    apart.dot(apart) >= gaps.squared && apart.dot(agent.direction) >= 0.0
}

// The hints for a leg that goes along the agent's line at the speed `aligned`, behind n others.
#[tactic(auto, unfolding(crate::specs::Follow::follow_hints))]
pub fn follow(
    agent: Course,
    leg: Run,
    gaps: Gaps,
    aligned: f64,
    obstacle: usize,
    hints: &mut [u64; 385],
    n: usize,
) -> Result<usize, Refusal>
    ensures { Added (follow_hints agent leg gaps aligned obstacle n) n hints.old hints.new result }
{
    let Ok((apart, t)) = chase::first_seen(agent, leg) else {
        return entries::refuse_for(hints, Refusal::Strayed, n);
    };
    if !is_followed(agent, gaps, apart) {
        return Ok(n);
    }
    let ahead = apart.dot(agent.direction);
    let chase = chase::chase_of(agent, leg, gaps, aligned, ahead);
    let first = chase::set_out(agent, gaps.follow, aligned, ahead, t);
    open(agent, leg, chase, obstacle, first, hints, n)
}
