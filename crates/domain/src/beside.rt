// What is wrong with a call for paths: more than the agent and the table is examined (docs/RULES.md, 3.10, 5.1, 11.9 and 11.10).
ghost use Rattle.std.specs.Prelude.{◌≡◌, ◌&&◌};
ghost use Rattle.domain.specs.Domain.{is_time};
ghost use Rattle.domain.specs.Beside.{is_budget, with_numbers, with_lent};
ghost use Rattle.domain.specs.Beside.{numbered_told, with_numbers_told, with_lent_told, shape_or_number};

use crate::limits;
use refusals::Refusal;
use times::time::TimePoint;

#[tactic(auto, unfolding(crate::specs::Beside::is_budget))]
pub fn is_budget(budget: u64) -> bool
    ensures { result ≡ is_budget budget }
{
    budget <= 65535
}

// A budget and an arrival time of the table.
#[tactic(auto, unfolding(crate::specs::Beside::is_budget, crate::specs::Domain::is_time))]
pub fn is_asked(budget: u64, arrival: TimePoint) -> bool
    ensures { result ≡ (is_budget budget && is_time arrival) }
{
    if !is_budget(budget) {
        return false;
    }
    limits::is_time(arrival)
}

// A ground for 1: it comes after any for 2, and before 3.
fn by_number(found: Result<(), u64>) -> Result<(), u64>
    ensures { result ≡ numbered_told found }
{
    match found {
        Ok(()) => Err(refusals::NUMBER),
        Err(refusals::SHAPE) => Err(refusals::SHAPE),
        Err(_) => Err(refusals::NUMBER),
    }
}

// What is found, told by its number, where numbers beside those examined must be in the table as well.
#[tactic(auto, unfolding(crate::specs::Beside::with_numbers_told))]
pub fn with_numbers_told(ok: bool, found: Result<(), u64>) -> Result<(), u64>
    ensures { result ≡ with_numbers_told ok found }
{
    if ok {
        return found;
    }
    by_number(found)
}

// What is found, told by its number, with hints that are refused by this number.
#[tactic(auto, unfolding(crate::specs::Beside::with_lent_told))]
pub fn with_lent_told(number: u64, found: Result<(), u64>) -> Result<(), u64>
    ensures { result ≡ with_lent_told number found }
{
    if number == refusals::SHAPE {
        return Err(refusals::SHAPE);
    }
    by_number(found)
}

// The refusal that is told by 2 or, with a ground for 1, by 1.
fn shape_or_number(number: u64) -> Refusal
    ensures { result ≡ shape_or_number number }
{
    match number {
        refusals::SHAPE => Refusal::Shape,
        _ => Refusal::Number,
    }
}

// What is found where numbers beside those examined must be in the table as well.
pub fn with_numbers(ok: bool, found: Result<(), Refusal>) -> Result<(), Refusal>
    ensures { result ≡ with_numbers ok found }
{
    if !ok {
        return with_numbers_told(false, found.map_err(u64::from)).map_err(shape_or_number);
    }
    found
}

// What is found with hints that are refused by this number.
pub fn with_lent(number: u64, found: Result<(), Refusal>) -> Result<(), Refusal>
    ensures { result ≡ with_lent number found }
{
    with_lent_told(number, found.map_err(u64::from)).map_err(shape_or_number)
}
