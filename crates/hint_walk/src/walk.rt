// The walk over all obstacles and their legs: `compute_wait_hints` of the Rust (docs/RULES.md, 10.1 to 10.7).
ghost use Rattle.std.specs.Prelude.{◌≡◌};
ghost use Rattle.table.specs.Table.{obstacle_in, obstacles_in};
ghost use Rattle.hint_list.specs.Adding.{Added};
ghost use Rattle.hint_walk.specs.Walk.{gaps_of, other_of, near_leg, near_obstacle, near_obstacles, hints_of};

use crate::leg_hints;
use courses::course;
use courses::course::Course;
use hint_chasing::chase::Gaps;
use hint_list::entries;
use refusals::Refusal;
use shapes::bounding_box::BoundingBox;
use shapes::profile::CircularProfile;
use shapes::waypoint::Leg;
use table::{reading, walked};

// What the search needs of an obstacle: its number, its footprint, and the distances that the agent keeps from it.
#[derive(Clone, Copy)]
pub struct Other {
    pub number: usize,
    pub footprint: f64,
    pub gaps: Gaps,
}

// The distances that the agent keeps from an obstacle.
#[tactic(auto, unfolding(crate::specs::Walk::gaps_of))]
fn gaps_of(p: CircularProfile, other: CircularProfile) -> Gaps
    ensures { result ≡ gaps_of p other }
{
    Gaps {
        critical: p.critical_distance_for(other),
        squared: p.critical_distance_squared_for(other),
        follow: p.follow_distance_for(other),
    }
}

#[tactic(auto, unfolding(crate::specs::Walk::other_of))]
fn other_of(p: CircularProfile, number: usize, profile: CircularProfile) -> Other
    ensures { result ≡ other_of p number profile }
{
    Other {
        number,
        footprint: profile.footprint,
        gaps: gaps_of(p, profile),
    }
}

// The hints for a leg, behind n others; none where its box, a little larger than that of its footprint, does not overlap the
// agent's.
#[tactic(auto, unfolding(crate::specs::Walk::near_leg))]
fn near_leg(
    agent: Course,
    bounds: BoundingBox,
    other: Other,
    leg: Leg,
    hints: &mut [u64; 385],
    n: usize,
) -> Result<usize, Refusal>
    ensures { Added (near_leg agent bounds other leg n) n hints.old hints.new result }
{
    let around = BoundingBox::for_line(other.footprint, leg).inflated_by(1e-3);
    if !bounds.overlaps(around) {
        return Ok(n);
    }
    let Ok(run) = course::run_of(leg) else {
        return entries::refuse_for(hints, Refusal::Strayed, n);
    };
    leg_hints::with_leg(agent, run, other.gaps, other.number, hints, n)
}

// The hints for the legs of obstacle o, in order, behind n others; none where its box does not overlap the agent's.
fn with_obstacle(
    agent: Course,
    p: CircularProfile,
    bounds: BoundingBox,
    marks: &[u64; 417],
    places: &[f64; 800],
    o: usize,
    hints: &mut [u64; 385],
    n: usize,
) -> Result<usize, Refusal>
    ensures { Added (near_obstacle agent p bounds o (obstacle_in marks.now places.now o) n) n hints.old
        hints.new result }
{
    let other = other_of(p, o, reading::profile_at(places, o));
    let last = walked::walked_to(bounds, marks, places, o);
    let mut m = n;
    for i in reading::first_of(marks, o)..last {
        let leg = reading::leg_at(marks, places, i);
        m = near_leg(agent, bounds, other, leg, hints, m)?;
    }
    Ok(m)
}

// The hints for the legs of all obstacles of a table, in order.
fn with_obstacles(
    agent: Course,
    p: CircularProfile,
    bounds: BoundingBox,
    marks: &[u64; 417],
    places: &[f64; 800],
    hints: &mut [u64; 385],
) -> Result<usize, Refusal>
    ensures { Added (near_obstacles agent p bounds 0 (obstacles_in marks.now places.now) 0) 0 hints.old
        hints.new result }
{
    let mut n = 0;
    for o in 0..reading::count_of(marks) {
        n = with_obstacle(agent, p, bounds, marks, places, o, hints, n)?;
    }
    Ok(n)
}

// The hints for a leg of the agent's, whose box is `bounds`, in the order of finding, from the first place of a list on; none where
// the agent hardly moves.
#[tactic(auto, unfolding(crate::specs::Walk::hints_of))]
pub fn compute_wait_hints(
    p: CircularProfile,
    agent: Leg,
    bounds: BoundingBox,
    marks: &[u64; 417],
    places: &[f64; 800],
    hints: &mut [u64; 385],
) -> Result<usize, Refusal>
    ensures { Added (hints_of p agent bounds (obstacles_in marks.now places.now)) 0 hints.old
        hints.new result }
{
    match course::course_of(agent) {
        Err(why) => entries::refuse_for(hints, why, 0),
        Ok(None) => Ok(0),
        Ok(Some(way)) => with_obstacles(way, p, bounds, marks, places, hints),
    }
}
