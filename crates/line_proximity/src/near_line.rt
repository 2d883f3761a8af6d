// When something in motion is near a line: `compute_quadratic_wait_hints` of the Rust (docs/RULES.md, 10.29).
ghost use Rattle.std.specs.Prelude.{◌≡◌};
ghost use Rattle.line_proximity.specs.NearLine.{across_quadratic, outlasting, past_end, spell_of, near_line};

use crate::stationary;
use floats::comparison;
use motions::quadratic::Quadratic;
use root::nearest;
use root::nearest::NoRoot;
use shapes::vector::Vector;

// The quadratic of something at p0 that goes by v, of its distance from the line through q along u.
fn across_quadratic(q: Vector, u: Vector, p0: Vector, v: Vector, limit: f64) -> Quadratic
    ensures { result ≡ across_quadratic q u p0 v limit }
{
    let alpha = v.minus(u.times(v.dot(u)));
    let k = p0.minus(q).dot(u);
    let beta = p0.minus(u.times(k)).minus(q);
    Quadratic {
        a: alpha.dot(alpha),
        b: 2.0 * alpha.dot(beta),
        c: beta.dot(beta) - limit,
    }
}

// Whether it has passed the end r of the line, going along with it, before `end`.
#[tactic(auto, unfolding(crate::specs::NearLine::outlasting))]
fn outlasts(r: Vector, u: Vector, p0: Vector, v: Vector, end: f64) -> bool
    ensures { result ≡ outlasting r u p0 v end }
{
    let along = v.dot(u);
    let ahead = r.minus(p0).dot(u);
    ahead / along < end && along > 0.0
}

// From `begin` to `end`, or to where it leaves the line's end r, if that comes first.
#[tactic(auto, unfolding(crate::specs::NearLine::past_end))]
fn past_end(
    r: Vector,
    u: Vector,
    p0: Vector,
    v: Vector,
    limit: f64,
    begin: f64,
    end: f64,
) -> Result<Option<(f64, f64)>, NoRoot>
    ensures { result ≡ past_end r u p0 v limit begin end }
{
    if !outlasts(r, u, p0, v, end) {
        return Ok(Some((begin, end)));
    }
    match stationary::compute_stationary_proximity(r, p0, v, limit)? {
        Some((_, leaves)) => Ok(Some((begin, comparison::smaller(end, leaves)))),
        None => Ok(Some((begin, end))),
    }
}

// What the two roots of the quadratic give within dt seconds.
#[tactic(auto, unfolding(crate::specs::NearLine::spell_of))]
fn spell(
    r: Vector,
    u: Vector,
    p0: Vector,
    v: Vector,
    dt: f64,
    limit: f64,
    first: f64,
    last: f64,
) -> Result<Option<(f64, f64)>, NoRoot>
    ensures { result ≡ spell_of r u p0 v dt limit first last }
{
    if dt < first {
        return Ok(None);
    }
    let end = comparison::smaller(last, dt);
    if end < 0.0 {
        return Ok(None);
    }
    past_end(r, u, p0, v, limit, first, end)
}

// When something that goes from p0 to pf in dt seconds is within a distance of the line from q to r along u.
#[tactic(auto, unfolding(crate::specs::NearLine::near_line))]
pub fn compute_quadratic_wait_hints(
    q: Vector,
    r: Vector,
    u: Vector,
    p0: Vector,
    pf: Vector,
    dt: f64,
    limit: f64,
) -> Result<Option<(f64, f64)>, NoRoot>
    ensures { result ≡ near_line q r u p0 pf dt limit }
{
    let v = pf.minus(p0).over(dt);
    let k = across_quadratic(q, u, p0, v, limit);
    if k.a < 1e-8 {
        return Ok(None);
    }
    let radicand = k.b * k.b - (4.0 * k.a) * k.c;
    if radicand < 0.0 {
        return Ok(None);
    }
    let s = nearest::square_root(radicand)?;
    let first = (-k.b - s) / (2.0 * k.a);
    let last = (-k.b + s) / (2.0 * k.a);
    spell(r, u, p0, v, dt, limit, first, last)
}
