// The rounds of a chase: each ends in a hint, where the agent waits (docs/RULES.md, 10.22 and 10.23).
ghost use Rattle.std.specs.Prelude.{◌≡◌};
ghost use Rattle.hint_list.specs.Adding.{Added};
ghost use Rattle.hint_sawtooth.specs.Rounds.{stride_of, round_of, rounds_from};

use courses::course::{Course, Run};
use hint_chasing::chase::Chase;
use hint_list::entries;
use hint_list::hint::WaitHint;
use refusals::Refusal;
use times::time::{Strayed, TimePoint};

// Where a round ends: how far along the line, at how many seconds, and whether that is the end of the line.
#[derive(Clone, Copy)]
pub struct Stride {
    pub s: f64,
    pub t: f64,
    pub ended: bool,
}

// A round: its hint, and where the next sets out from if there is one.
#[derive(Clone, Copy)]
pub enum Round {
    Next(WaitHint, f64, f64),
    Last(WaitHint),
}

// From s metres and t seconds the agent catches up with the leg, then waits; it goes no farther than the end of its line.
#[tactic(auto, unfolding(crate::specs::Rounds::stride_of))]
fn stride_from(agent: Course, chase: Chase, s: f64, t: f64) -> Stride
    ensures { result ≡ stride_of agent chase s t }
{
    let there = chase.ahead + chase.aligned * (t - chase.since);
    let catching = ((there - s) - chase.gap) / chase.closing;
    let s1 = s + agent.speed * catching;
    let t1 = t + (catching + chase.rest);
    if s1 >= agent.distance {
        Stride {
            s: agent.distance,
            t: t1 - (s1 - agent.distance) / agent.speed,
            ended: true,
        }
    } else {
        Stride {
            s: s1,
            t: t1,
            ended: false,
        }
    }
}

#[tactic(auto, unfolding(crate::specs::Rounds::round_of))]
fn round_from(
    agent: Course,
    leg: Run,
    chase: Chase,
    obstacle: usize,
    s: f64,
    t: f64,
) -> Result<Round, Strayed>
    ensures { result ≡ round_of agent leg chase obstacle s t }
{
    let to = stride_from(agent, chase, s, t);
    let at = TimePoint::from_secs_f64(to.t)?;
    let hint = WaitHint {
        place: agent.run.from.plus(agent.direction.times(to.s)),
        until: at.min(leg.end),
        obstacle,
    };
    if to.ended || !at.is_before(leg.end) {
        Ok(Round::Last(hint))
    } else {
        Ok(Round::Next(hint, to.s, to.t))
    }
}

// The rounds from s metres and t seconds on, behind n hints. They end, since each stores a hint or is refused.
pub fn rounds(
    agent: Course,
    leg: Run,
    chase: Chase,
    obstacle: usize,
    s: f64,
    t: f64,
    hints: &mut [u64; 385],
    n: usize,
) -> Result<usize, Refusal>
    ensures { Added (rounds_from agent leg chase obstacle n s t) n hints.old hints.new result }
{
    let mut m = n;
    let mut s1 = s;
    let mut t1 = t;
    loop {
        match round_from(agent, leg, chase, obstacle, s1, t1) {
            Ok(Round::Next(hint, s2, t2)) => {
                m = entries::with_hint(hints, m, hint)?;
                s1 = s2;
                t1 = t2;
            }
            Ok(Round::Last(hint)) => return entries::with_hint(hints, m, hint),
            Err(_) => return entries::refuse_for(hints, Refusal::Strayed, m),
        }
    }
}
