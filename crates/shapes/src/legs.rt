// A leg of plain numbers.
ghost use Rattle.std.specs.Prelude.{◌≡◌};
ghost use Rattle.shapes.specs.Plain.{plain_leg};

use crate::waypoint::{Leg, Waypoint};
use times::time::TimePoint;

// The leg from (x0, y0) at t0 to (x1, y1) at t1.
pub fn leg_of(t0: i64, x0: f64, y0: f64, t1: i64, x1: f64, y1: f64) -> Leg
    ensures { result ≡ plain_leg t0 x0 y0 t1 x1 y1 }
{
    Leg {
        start: Waypoint {
            time: TimePoint(t0),
            x: x0,
            y: y0,
        },
        end: Waypoint {
            time: TimePoint(t1),
            x: x1,
            y: y1,
        },
    }
}
