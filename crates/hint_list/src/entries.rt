// Hints in a lent list of words, as they are handed out: their count, then six words each, which are contour, reach, x, y, until
// and obstacle (docs/RULES.md, 10.41 to 10.43 and 11.8). There is room for 64.
ghost use Rattle.std.specs.Prelude.{◌≡◌, ◌<◌, get_or, Ok, Err};
ghost use Rattle.hint_list.specs.Hints.{Refused, one_hint, one_wait};
ghost use Rattle.hint_list.specs.Words.{blank_ranked, count_in, hint_in, hints_in, put_in};
ghost use Rattle.hint_list.specs.Adding.{Added};
ghost use Rattle.hint_list.specs.Numbered.{AddedNumbered, one_numbered};

use crate::hint;
use crate::hint::{RankedHint, WaitHint};
use number_words::word;
use refusals::Refusal;
use shapes::vector::Vector;
use times::time::{Duration, TimePoint};

// How many hints there are.
#[tactic(auto, unfolding(crate::specs::Words::count_in))]
pub fn count_of(hints: &[u64; 385]) -> usize
    ensures { result ≡ count_in hints.now }
{
    hints[0].min(64) as usize
}

// The hint in the six words of place i.
#[tactic(auto, unfolding(crate::specs::Words::hint_in))]
fn read(hints: &[u64; 385], i: usize) -> RankedHint
    requires { i < 64 }
    ensures { result ≡ hint_in hints.now i }
{
    RankedHint {
        contour: Duration(word::signed_of(hints[6 * i + 1])),
        reach: word::double_of(hints[6 * i + 2]),
        hint: WaitHint {
            place: Vector {
                x: word::double_of(hints[6 * i + 3]),
                y: word::double_of(hints[6 * i + 4]),
            },
            until: TimePoint(word::signed_of(hints[6 * i + 5])),
            obstacle: hints[6 * i + 6] as usize,
        },
    }
}

// Hint i, and a blank one where there is none.
#[tactic(auto, using(crate::proofs::Reading::few, crate::proofs::Reading::hint_there))]
pub fn hint_at(hints: &[u64; 385], i: usize) -> RankedHint
    ensures { result ≡ get_or (hints_in hints.now) i blank_ranked }
{
    if i < count_of(hints) {
        return read(hints, i);
    }
    RankedHint {
        contour: Duration(0),
        reach: 0.0,
        hint: WaitHint {
            place: Vector { x: 0.0, y: 0.0 },
            until: TimePoint(0),
            obstacle: 0,
        },
    }
}

// Puts a hint at place i; every other word stays, and all of them where there is no such place.
#[tactic(auto, unfolding(crate::specs::Words::put_in, crate::specs::Words::set_in))]
pub fn put_hint(hints: &mut [u64; 385], i: usize, h: RankedHint)
    ensures { hints.new ≡ put_in hints.old i h }
{
    if 64 <= i {
        return;
    }
    let hint = h.hint;
    let place = hint.place;
    hints[6 * i + 1] = word::of_signed(h.contour.0);
    hints[6 * i + 2] = word::of_double(h.reach);
    hints[6 * i + 3] = word::of_double(place.x);
    hints[6 * i + 4] = word::of_double(place.y);
    hints[6 * i + 5] = word::of_signed(hint.until.0);
    hints[6 * i + 6] = hint.obstacle as u64;
}

// A refusal's number alone, whatever number it is: no word of the list is kept.
pub fn refuse(hints: &mut [u64; 385], number: u64, n: usize) -> Result<usize, u64>
    ensures { AddedNumbered (Err number) n hints.old hints.new result }
{
    *hints = [0; 385];
    Err(number)
}

// A refusal alone: no word of the list is kept.
#[tactic(auto, unfolding(crate::specs::Adding::filled_of, crate::specs::Adding::laid_by))]
pub fn refuse_for(hints: &mut [u64; 385], why: Refusal, n: usize) -> Result<usize, Refusal>
    ensures { Added (Refused why) n hints.old hints.new result }
{
    refuse(hints, u64::from(why), n).map_err(|_| why)
}

// One hint more behind n others, with no rank yet: refused 7 where its place is too far off, then 10 where it would be the 65th.
#[tactic(auto, unfolding(crate::specs::Hints::one_hint))]
pub fn with_hint(hints: &mut [u64; 385], n: usize, hint: WaitHint) -> Result<usize, Refusal>
    ensures { Added (one_hint n hint) n hints.old hints.new result }
{
    if !hint::is_placed(hint.place) {
        return refuse_for(hints, Refusal::Strayed, n);
    }
    if 64 <= n {
        return refuse_for(hints, Refusal::Full, n);
    }
    let unranked = RankedHint {
        contour: Duration(0),
        reach: 0.0,
        hint,
    };
    put_hint(hints, n, unranked);
    Ok(n + 1)
}

// What a part of the search found, where to wait and until when, for the obstacle of that number, behind n hints.
#[tactic(auto, unfolding(crate::specs::Hints::one_wait, crate::specs::Adding::filled_of, crate::specs::Adding::laid_by))]
fn with_found(
    hints: &mut [u64; 385],
    n: usize,
    found: Option<(Vector, TimePoint)>,
    obstacle: usize,
) -> Result<usize, Refusal>
    ensures { Added (one_wait n (Ok found) obstacle) n hints.old hints.new result }
{
    match found {
        Some((place, until)) => {
            let hint = WaitHint {
                place,
                until,
                obstacle,
            };
            with_hint(hints, n, hint)
        }
        None => Ok(n),
    }
}

// What was found, for the obstacle of that number, behind n hints, or a refusal's number, whatever number it is.
#[tactic(auto, unfolding(crate::specs::Numbered::one_numbered))]
pub fn with_wait(
    hints: &mut [u64; 385],
    n: usize,
    wait: Result<Option<(Vector, TimePoint)>, u64>,
    obstacle: usize,
) -> Result<usize, u64>
    ensures { AddedNumbered (one_numbered n wait obstacle) n hints.old hints.new result }
{
    match wait {
        Ok(found) => with_found(hints, n, found, obstacle).map_err(u64::from),
        Err(number) => refuse(hints, number, n),
    }
}

// What a part of the search answered, for the obstacle of that number, behind n hints.
#[tactic(auto, unfolding(crate::specs::Hints::one_wait))]
pub fn with_answer(
    hints: &mut [u64; 385],
    n: usize,
    wait: Result<Option<(Vector, TimePoint)>, Refusal>,
    obstacle: usize,
) -> Result<usize, Refusal>
    ensures { Added (one_wait n wait obstacle) n hints.old hints.new result }
{
    match wait {
        Ok(found) => with_found(hints, n, found, obstacle),
        Err(why) => refuse_for(hints, why, n),
    }
}
