// How far an obstacle's waypoints are walked (docs/RULES.md, 9.8 and 10.3).
ghost use Rattle.std.specs.Prelude.{◌≡◌};
ghost use Rattle.table.specs.Walked.{last_in, walked_in};

use crate::reading;
use shapes::bounding_box::BoundingBox;

// The last waypoint of obstacle o, where a walk over its legs ends.
#[tactic(auto, unfolding(crate::specs::Walked::last_in))]
pub fn last_of(marks: &[u64; 417], o: usize) -> usize
    ensures { result ≡ last_in marks.now o }
{
    let end = reading::end_of(marks, o);
    if end == 0 {
        return 0;
    }
    end - 1
}

// The same where the obstacle's box overlaps the agent's; where it does not, 0, so that none of its legs is walked.
#[tactic(auto, unfolding(crate::specs::Walked::walked_in))]
pub fn walked_to(bounds: BoundingBox, marks: &[u64; 417], places: &[f64; 800], o: usize) -> usize
    ensures { result ≡ walked_in bounds marks.now places.now o }
{
    if !bounds.overlaps(reading::box_at(places, o)) {
        return 0;
    }
    last_of(marks, o)
}
