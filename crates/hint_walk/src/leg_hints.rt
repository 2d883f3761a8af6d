// The hints for one leg of an obstacle: the crossing hint, then those of the part that its direction chooses
// (docs/RULES.md, 10.8, 10.14 and 10.15).
ghost use Rattle.std.specs.Prelude.{◌≡◌};
ghost use Rattle.hint_list.specs.Adding.{Added};
ghost use Rattle.hint_walk.specs.LegHints.{part_of, part_hints, leg_hints};

use courses::course::{Course, Run};
use hint_chasing::chase::Gaps;
use hint_following::follow;
use hint_list::entries;
use hint_waits::{crossing, oncoming, standing};
use refusals::Refusal;

// What follows the crossing hint: the leg comes on, outpaces the agent, is followed, or stands.
#[derive(Clone, Copy, PartialEq, Eq)]
pub enum Part {
    Oncoming,
    Outpacing,
    Following,
    Standing,
}

// The part for a leg that goes along the agent's line at the speed `aligned`.
#[tactic(auto, unfolding(crate::specs::LegHints::part_of))]
fn part_of(agent: Course, leg: Run, aligned: f64) -> Part
    ensures { result ≡ part_of agent leg aligned }
{
    let run = agent.run;
    if !(aligned >= 0.0) {
        return Part::Oncoming;
    }
    if leg.end.is_before(run.start) {
        return Part::Oncoming;
    }
    if agent.speed <= aligned {
        return Part::Outpacing;
    }
    if aligned > 1e-2 {
        return Part::Following;
    }
    Part::Standing
}

// The hints of that part, behind n others.
#[tactic(auto, unfolding(crate::specs::LegHints::part_hints))]
fn with_part(
    agent: Course,
    leg: Run,
    gaps: Gaps,
    obstacle: usize,
    hints: &mut [u64; 385],
    n: usize,
) -> Result<usize, Refusal>
    ensures { Added (part_hints agent leg gaps obstacle n) n hints.old hints.new result }
{
    let aligned = leg.velocity.dot(agent.direction);
    match part_of(agent, leg, aligned) {
        Part::Oncoming => {
            let wait = oncoming::oncoming_wait(agent, leg, gaps.squared);
            entries::with_answer(hints, n, wait, obstacle)
        }
        Part::Outpacing => Ok(n),
        Part::Following => follow::follow(agent, leg, gaps, aligned, obstacle, hints, n),
        Part::Standing => {
            let wait = standing::standing_wait(agent, leg, gaps.squared);
            entries::with_answer(hints, n, wait, obstacle)
        }
    }
}

// The hints for a leg, behind n others.
#[tactic(auto, unfolding(crate::specs::LegHints::leg_hints))]
pub fn with_leg(
    agent: Course,
    leg: Run,
    gaps: Gaps,
    obstacle: usize,
    hints: &mut [u64; 385],
    n: usize,
) -> Result<usize, Refusal>
    ensures { Added (leg_hints agent leg gaps obstacle n) n hints.old hints.new result }
{
    let wait = crossing::crossing_wait(agent, leg, gaps.squared);
    let m = entries::with_answer(hints, n, wait, obstacle)?;
    with_part(agent, leg, gaps, obstacle, hints, m)
}
