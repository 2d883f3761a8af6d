// When something in motion is within a distance of a place: `compute_stationary_proximity` of the Rust (docs/RULES.md, 10.37).
ghost use Rattle.std.specs.Prelude.{◌≡◌};
ghost use Rattle.line_proximity.specs.Stationary.{stationary_quadratic, stationary_proximity};

use motions::quadratic::Quadratic;
use root::nearest;
use root::nearest::NoRoot;
use shapes::vector::Vector;

// The quadratic of something that is at p0 and goes by v, about the place r.
fn stationary_quadratic(r: Vector, p0: Vector, v: Vector, limit: f64) -> Quadratic
    ensures { result ≡ stationary_quadratic r p0 v limit }
{
    let x = p0.x - r.x;
    let y = p0.y - r.y;
    Quadratic {
        a: v.x * v.x + v.y * v.y,
        b: 2.0 * (v.x * x + v.y * y),
        c: (x * x + y * y) - limit,
    }
}

// The seconds at which something comes within the distance and leaves it; none where it hardly moves or is never so near.
#[tactic(auto, unfolding(crate::specs::Stationary::stationary_proximity))]
pub fn compute_stationary_proximity(
    r: Vector,
    p0: Vector,
    v: Vector,
    limit: f64,
) -> Result<Option<(f64, f64)>, NoRoot>
    ensures { result ≡ stationary_proximity r p0 v limit }
{
    let q = stationary_quadratic(r, p0, v, limit);
    if !(q.a >= 1e-8) {
        return Ok(None);
    }
    let radicand = q.b * q.b - (4.0 * q.a) * q.c;
    if !(radicand >= 0.0) {
        return Ok(None);
    }
    let s = nearest::square_root(radicand)?;
    let first = (-q.b - s) / (2.0 * q.a);
    let last = (-q.b + s) / (2.0 * q.a);
    Ok(Some((first, last)))
}
