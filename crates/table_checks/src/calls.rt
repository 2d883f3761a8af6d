// The call for an obstacle's box: it examines its own input, then does the work (docs/RULES.md, 5.1 to 5.3).
ghost use Rattle.std.specs.Prelude.{◌≡◌};
ghost use Rattle.table_checks.specs.Asked.{asked_hull};

use crate::examine;
use refusals::Refusal;
use shapes::bounding_box::BoundingBox;
use shapes::profile::CircularProfile;
use table::reading;
use table_packing::packing;

// The box of an obstacle with these waypoints, as a table of its own; none where there are no waypoints.
pub fn box_of_obstacle(
    p: CircularProfile,
    times: &[i64],
    xs: &[f64],
    ys: &[f64],
) -> Result<Option<BoundingBox>, Refusal>
    ensures { result ≡ asked_hull p times.now xs.now ys.now }
{
    let starts = [0usize];
    let numbers = [p.footprint, p.follow, 0.0];
    let mut marks = [0u64; 417];
    let mut places = [0.0; 800];
    if !packing::pack(&starts, &numbers, times, xs, ys, &mut marks, &mut places) {
        return Err(Refusal::Shape);
    }
    if !examine::is_shaped(&marks, &places) {
        return Err(Refusal::Shape);
    }
    if !examine::are_allowed(&marks, &places) {
        return Err(Refusal::Number);
    }
    if times.len() == 0 {
        return Ok(None);
    }
    Ok(Some(reading::box_at(&places, 0)))
}
