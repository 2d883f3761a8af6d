// A hint, as `WaitHint` of the Rust, with its rank, as `RankedHint` (docs/RULES.md, 10.40 and 11.8).
ghost use Rattle.std.specs.Prelude.{◌≡◌};
ghost use Rattle.hint_list.specs.Hint.{is_within_million, is_placed};

use floats::comparison;
use shapes::vector::Vector;
use times::time::{Duration, TimePoint};

// A place on the agent's line, the instant until which to wait there, and the number of the obstacle that is waited for.
#[derive(Clone, Copy)]
pub struct WaitHint {
    pub place: Vector,
    pub until: TimePoint,
    pub obstacle: usize,
}

// A hint, how late the agent is that waits there, and how far along its line that is.
#[derive(Clone, Copy)]
pub struct RankedHint {
    pub contour: Duration,
    pub reach: f64,
    pub hint: WaitHint,
}

// Whether a coordinate is at most 1,000,000 in size.
fn is_within_million(x: f64) -> bool
    ensures { result ≡ is_within_million x }
{
    comparison::is_between(-1000000.0, 1000000.0, x)
}

// Whether a place is one that a hint may have.
#[tactic(auto, unfolding(crate::specs::Hint::is_placed))]
pub fn is_placed(p: Vector) -> bool
    ensures { result ≡ is_placed p }
{
    is_within_million(p.x) && is_within_million(p.y)
}
