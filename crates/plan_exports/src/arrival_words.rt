// Arrival times: how many there are, by how many sweeps, then a word each (docs/RULES.md, 12.18).
ghost use Rattle.std.specs.Prelude.{◌≡◌, ◌++◌, ◌+◌, ◌≤◌, min, length, take, Ok};
ghost use Rattle.lent.specs.Outcome.{Handed};
ghost use Rattle.arrival_times.specs.Words.{words_of, listing_outcome};
ghost use Rattle.plan_exports.specs.Given.{numbered_listing};

use arrival_times::listing::Arrivals;
use lent::words;
use number_words::word;
use refusals::Refusal;

// How many of the first `count` places a list has.
fn held(list: &[i64], count: usize) -> usize
    ensures { result ≡ min count (length list.now) }
{
    count.min(list.len())
}

// Puts the words of a list's first n times behind the first two words of a room.
#[tactic(auto, unfolding(arrival_times::specs::Words::words_of))]
fn put_times(room: &mut [u64], list: &[i64], n: usize)
    requires { (2 + n ≤ length room.old) × (n ≤ length list.now) }
    ensures { take (2 + n) room.new ≡ take 2 room.old ++ words_of (take n list.now) }
{
    for (i, ns) in list[..n].iter().enumerate() {
        room[2 + i] = word::of_signed(*ns);
    }
}

// The times that a search lists.
fn give_listed(found: Arrivals, list: &[i64], out: &mut [u64]) -> u64
    ensures { Handed (listing_outcome (Ok found) list.now) out.old out.new result }
{
    let n = held(list, found.listed);
    if out.len() < 2 + n {
        return words::refuse(out, u64::from(Refusal::NoRoom));
    }
    out[0] = found.listed as u64;
    out[1] = found.sweeps as u64;
    put_times(out, list, n);
    words::wipe_from(out, 2 + n);
    0
}

// What a search found, its times at the front of `list`.
pub fn give_arrivals(found: Result<Arrivals, u64>, list: &[i64], out: &mut [u64]) -> u64
    ensures { Handed (numbered_listing found list.now) out.old out.new result }
{
    match found {
        Ok(times) => give_listed(times, list, out),
        Err(number) => words::refuse(out, number),
    }
}
