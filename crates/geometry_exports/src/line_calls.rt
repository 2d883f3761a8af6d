// Stationary proximity: places and a velocity come as plain numbers.
ghost use Rattle.lent.specs.Outcome.{Handed};
ghost use Rattle.line_proximity.specs.Stationary.{stay_outcome};
ghost use Rattle.line_proximity.specs.Asked.{asked_stationary};
ghost use Rattle.shapes.specs.Plain.{vector_of};

use crate::proximity_words;
use line_proximity::calls;
use shapes::vector::Vector;

// When something that goes from (px, py) by (vx, vy) is within a squared distance of (rx, ry), in seconds.
pub fn igelbert_stationary_proximity(
    rx: f64,
    ry: f64,
    px: f64,
    py: f64,
    vx: f64,
    vy: f64,
    limit: f64,
    out: &mut [u64],
) -> u64
    ensures { Handed (stay_outcome (asked_stationary (vector_of rx ry) (vector_of px py) (vector_of vx vy) limit)) out.old
        out.new result }
{
    let r = Vector { x: rx, y: ry };
    let p0 = Vector { x: px, y: py };
    let v = Vector { x: vx, y: vy };
    proximity_words::give_stay(
        calls::stationary_proximity(r, p0, v, limit).map_err(u64::from),
        out,
    )
}
