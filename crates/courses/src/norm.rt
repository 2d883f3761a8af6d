// The length of a vector, and its direction (docs/RULES.md, 2.13 and 2.14).
ghost use Rattle.std.specs.Prelude.{◌≡◌};
ghost use Rattle.courses.specs.Norm.{norm_of, direction_of};

use root::nearest;
use root::nearest::NoRoot;
use shapes::vector::Vector;

#[tactic(auto, unfolding(crate::specs::Norm::norm_of))]
pub fn norm(v: Vector) -> Result<f64, NoRoot>
    ensures { result ≡ norm_of v }
{
    nearest::square_root(v.dot(v))
}

// The direction of a vector; none for one that is not longer than 1e-8.
#[tactic(auto, unfolding(crate::specs::Norm::direction_of))]
pub fn try_normalize(v: Vector) -> Result<Option<Vector>, NoRoot>
    ensures { result ≡ direction_of v }
{
    let n = norm(v)?;
    if n > 1e-8 {
        Ok(Some(v.over(n)))
    } else {
        Ok(None)
    }
}
