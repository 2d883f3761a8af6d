// The ranked hints of a leg: `compute_safe_linear_path_wait_hints` of the Rust (docs/RULES.md, section 11).
ghost use Rattle.std.specs.Prelude.{◌≡◌, List, [], length, replicate, Ok};
ghost use Rattle.table.specs.Table.{obstacles_in};
ghost use Rattle.hint_list.specs.Hints.{Of};
ghost use Rattle.hint_list.specs.Adding.{Added};
ghost use Rattle.hint_list.specs.declared.hint.WaitHint.{WaitHint};
ghost use Rattle.hint_ranking.specs.Hints.{Ranks, Refused};
ghost use Rattle.hints.specs.Contour.{scale_of, graded_onto, measured_by, ranked_hints};
ghost use Rattle.hints.specs.Ranking.{RanksOver, found_in};

use crate::contour;
use crate::contour::Scale;
use hint_list::entries;
use hint_ranking::ranked_hints;
use hint_walk::walk;
use refusals::Refusal;
use shapes::bounding_box::BoundingBox;
use shapes::profile::CircularProfile;
use shapes::waypoint::Leg;

// A refusal alone: no word of the list is kept.
pub(crate) fn refuse(hints: &mut [u64; 385], why: Refusal) -> Result<usize, Refusal>
    ensures { Ranks (Refused why) hints.new result }
{
    *hints = [0; 385];
    Err(why)
}

// The hints of a list, measured one by one in the order of finding and ranked in their place.
fn rank(scale: Scale, hints: &mut [u64; 385]) -> Result<usize, Refusal>
    requires { length hints.old ≡ 385 }
    ensures { RanksOver (graded_onto scale [] (found_in hints.old)) hints.old hints.new result }
{
    let n = entries::count_of(hints);
    for i in 0..n {
        let found = entries::hint_at(hints, i);
        let Ok(ranked) = contour::grade_of(scale, found.hint) else {
            return refuse(hints, Refusal::Strayed);
        };
        ranked_hints::put_in_rank(hints, i, ranked);
    }
    Ok(n)
}

// The n hints that were found, which stand in a list that was empty, with their count, ranked along the agent's leg.
#[tactic(auto, unfolding(crate::specs::Contour::measured_by))]
fn measure(agent: Leg, hints: &mut [u64; 385], n: usize) -> Result<usize, Refusal>
    requires { length hints.old ≡ 385 }
    ensures { (hs : List WaitHint) → Added (Of hs) 0 (replicate 385 0) hints.old (Ok n) → Ranks
        (measured_by (scale_of agent) hs) hints.new result }
{
    hints[0] = n as u64;
    match contour::scale_of(agent) {
        Err(refusal) => refuse(hints, refusal),
        Ok(scale) => rank(scale, hints),
    }
}

// The ranked hints in the lent list, whatever stood there.
pub fn compute_safe_linear_path_wait_hints(
    p: CircularProfile,
    agent: Leg,
    bounds: BoundingBox,
    marks: &[u64; 417],
    places: &[f64; 800],
    hints: &mut [u64; 385],
) -> Result<usize, Refusal>
    ensures { Ranks (ranked_hints p agent bounds (obstacles_in marks.now places.now)) hints.new result }
{
    *hints = [0; 385];
    let n = walk::compute_wait_hints(p, agent, bounds, marks, places, hints)?;
    measure(agent, hints, n)
}
