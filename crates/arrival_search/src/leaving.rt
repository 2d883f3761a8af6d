// What the exit of a leg makes of a candidate that is violated (docs/RULES.md, 12.9).
ghost use Rattle.std.specs.Prelude.{◌≡◌};
ghost use Rattle.arrival_search.specs.Search.{pushed_out};

use crate::turn::Adjustment;
use refusals::Refusal;
use times::time::{Duration, TimePoint};

// The exit, and no instant before the candidate. An exit more than 10,000 ns before the candidate is where the Rust asserts.
#[tactic(auto, unfolding(crate::specs::Search::pushed_out))]
pub fn left_at(exit: TimePoint, candidate: TimePoint) -> Result<Adjustment, Refusal>
    ensures { result ≡ pushed_out candidate exit }
{
    let late = exit.plus(Duration(10000))?;
    if late.is_before(candidate) {
        return Err(Refusal::Late);
    }
    Ok(Adjustment::Pushed(exit.max(candidate)))
}
