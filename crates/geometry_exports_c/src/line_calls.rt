// Stationary proximity: places and a velocity come as plain numbers.
ghost use Rattle.lent.specs.Outcome.{Handed};
ghost use Rattle.line_proximity.specs.Stationary.{stay_outcome};
ghost use Rattle.line_proximity.specs.Asked.{asked_stationary};
ghost use Rattle.shapes.specs.Plain.{vector_of};

// When something that goes from (px, py) by (vx, vy) is within a squared distance of (rx, ry), in seconds.
#[unsafe(no_mangle)]
pub extern "C" fn igelbert_stationary_proximity(
    rx: f64,
    ry: f64,
    px: f64,
    py: f64,
    vx: f64,
    vy: f64,
    limit: f64,
    out: &mut [u64],
) -> u64
    ensures { Handed (stay_outcome (asked_stationary (vector_of rx ry) (vector_of px py) (vector_of vx vy) limit)) out.old
        out.new result }
{
    geometry_exports::line_calls::igelbert_stationary_proximity(rx, ry, px, py, vx, vy, limit, out)
}
