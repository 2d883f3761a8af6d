// Whether a way is safe: the segment in its own box among all obstacles (docs/RULES.md, 13.3).
ghost use Rattle.std.specs.Prelude.{◌≡◌};
ghost use Rattle.table.specs.Table.{obstacles_in};
ghost use Rattle.path_tests.specs.Way.{way_of, both_ways};

use conflicts::conflict::Verdict;
use path_search::trial::Trial;
use refusals::Refusal;
use segments::segment;
use shapes::bounding_box::BoundingBox;
use shapes::profile::CircularProfile;
use shapes::waypoint::{Leg, Waypoint};

#[tactic(auto, unfolding(crate::specs::Way::way_of, table::specs::Table::obstacles_in))]
pub fn safe_way(
    profile: CircularProfile,
    from: Waypoint,
    to: Waypoint,
    marks: &[u64; 417],
    places: &[f64; 800],
) -> Result<Trial, Refusal>
    ensures { result ≡ way_of profile (obstacles_in marks.now places.now) from to }
{
    let leg = Leg {
        start: from,
        end: to,
    };
    let bounds = BoundingBox::for_line(profile.footprint, leg);
    match segment::is_safe_segment(leg, bounds, marks, places)? {
        Verdict::Clear => Ok(Trial::Passed),
        Verdict::Conflict => Ok(Trial::Failed),
    }
}

// Two ways in a row: the second is tested only where the first is safe.
#[tactic(auto, unfolding(crate::specs::Way::both_ways, table::specs::Table::obstacles_in))]
pub fn both_ways(
    profile: CircularProfile,
    from: Waypoint,
    via: Waypoint,
    to: Waypoint,
    marks: &[u64; 417],
    places: &[f64; 800],
) -> Result<Trial, Refusal>
    ensures { result ≡ both_ways profile (obstacles_in marks.now places.now) from via to }
{
    match safe_way(profile, from, via, marks, places)? {
        Trial::Passed => safe_way(profile, via, to, marks, places),
        Trial::Failed => Ok(Trial::Failed),
    }
}
