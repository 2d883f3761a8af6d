// The candidate that may follow one (docs/RULES.md, 12.15 and 12.17).
ghost use Rattle.std.specs.Prelude.{◌≡◌};
ghost use Rattle.arrival_search.specs.Legs.{sooner};

use refusals::Refusal;
use times::time::TimePoint;

// The smaller of what an obstacle gives and the best so far.
#[tactic(auto, unfolding(crate::specs::Legs::sooner, times::specs::Time::earlier_of))]
pub fn sooner_of(
    check: TimePoint,
    best: Result<Option<TimePoint>, Refusal>,
) -> Result<Option<TimePoint>, Refusal>
    ensures { result ≡ sooner check best }
{
    match best? {
        None => Ok(Some(check)),
        Some(t) => Ok(Some(t.min(check))),
    }
}
