// Where the reading of a line stands, one byte after another (docs/RULES.md, 21.1 to 21.4).
ghost use Rattle.std.specs.Prelude.{◌≡◌};
ghost use Rattle.hold_lines.specs.Place.{first_digit, next_digit, stepped, closed};

// Before the line's first byte; in the crew's number; behind the space after it; in the round's number; behind the space after
// that; behind a minus sign; in a hold of zero or more; in the size of one below zero; or broken, since no line begins so. The
// crew's number is carried along, and of the number that is being read what its digits make so far.
#[derive(Clone, Copy)]
pub enum Place {
    Start,
    Crew(u64),
    BeforeRound(u64),
    Round(u64, u64),
    BeforeHold(u64),
    BeforeSize(u64),
    Hold(u64, u64),
    Below(u64, u64),
    Broken,
}

// A whole line: its crew, and its hold raised by 2^63, so that it is a number of 64 bits without a sign.
#[derive(Clone, Copy)]
pub struct Line {
    pub crew: u64,
    pub raised: u64,
}

// A hold of a line is raised by so much, and none is further below zero.
const RAISE: u64 = 1 << 63;

// The first digit of a number.
#[tactic(auto, unfolding(crate::specs::Place::first_digit, texts::specs::Reading::is_digit))]
fn first_digit(b: u8) -> Option<u64>
    ensures { result ≡ first_digit b }
{
    match b {
        b'0'..=b'9' => Some((b - b'0') as u64),
        _ => None,
    }
}

// A digit more behind those that make n: none behind a single zero, and no number above the most that is allowed.
#[tactic(auto, unfolding(crate::specs::Place::next_digit, crate::specs::Place::first_digit, texts::specs::Reading::is_digit))]
fn next_digit(most: u64, n: u64, b: u8) -> Option<u64>
    ensures { result ≡ next_digit most n b }
{
    if n == 0 {
        return None;
    }
    let d = first_digit(b)?;
    let next = n.checked_mul(10)?.checked_add(d)?;
    (next <= most).then_some(next)
}

// In the crew's number.
#[tactic(auto, unfolding(crate::specs::Place::stepped))]
fn crew_step(n: u64, b: u8) -> Place
    ensures { result ≡ stepped (Place.Crew n) b }
{
    if b == b' ' {
        return Place::BeforeRound(n);
    }
    next_digit(63, n, b).map_or(Place::Broken, |next| Place::Crew(next))
}

// In the round's number.
#[tactic(auto, unfolding(crate::specs::Place::stepped))]
fn round_step(crew: u64, n: u64, b: u8) -> Place
    ensures { result ≡ stepped (Place.Round crew n) b }
{
    if b == b' ' {
        return Place::BeforeHold(crew);
    }
    next_digit(u32::MAX as u64, n, b).map_or(Place::Broken, |next| Place::Round(crew, next))
}

// At the first byte of the hold.
#[tactic(auto, unfolding(crate::specs::Place::stepped))]
fn first_of_hold(crew: u64, b: u8) -> Place
    ensures { result ≡ stepped (Place.BeforeHold crew) b }
{
    if b == b'-' {
        return Place::BeforeSize(crew);
    }
    first_digit(b).map_or(Place::Broken, |n| Place::Hold(crew, n))
}

// At the first digit behind a minus sign: there is no hold of minus zero.
#[tactic(auto, unfolding(crate::specs::Place::stepped))]
fn first_of_size(crew: u64, b: u8) -> Place
    ensures { result ≡ stepped (Place.BeforeSize crew) b }
{
    match first_digit(b) {
        None | Some(0) => Place::Broken,
        Some(size) => Place::Below(crew, size),
    }
}

// One byte more.
#[tactic(auto, unfolding(crate::specs::Place::stepped))]
pub fn step(place: Place, b: u8) -> Place
    ensures { result ≡ stepped place b }
{
    match place {
        Place::Start => first_digit(b).map_or(Place::Broken, |n| Place::Crew(n)),
        Place::Crew(n) => crew_step(n, b),
        Place::BeforeRound(crew) => first_digit(b).map_or(Place::Broken, |n| Place::Round(crew, n)),
        Place::Round(crew, n) => round_step(crew, n, b),
        Place::BeforeHold(crew) => first_of_hold(crew, b),
        Place::BeforeSize(crew) => first_of_size(crew, b),
        Place::Hold(crew, n) => next_digit(RAISE - 1, n, b).map_or(
            Place::Broken,
            |next| Place::Hold(crew, next),
        ),
        Place::Below(crew, n) => next_digit(RAISE, n, b).map_or(
            Place::Broken,
            |next| Place::Below(crew, next),
        ),
        Place::Broken => Place::Broken,
    }
}

// The line that ends here, if one may.
#[tactic(auto, unfolding(crate::specs::Place::closed))]
pub fn close(place: Place) -> Option<Line>
    ensures { result ≡ closed place }
{
    match place {
        Place::Hold(crew, n) => Some(Line {
            crew,
            raised: RAISE.checked_add(n)?,
        }),
        Place::Below(crew, n) => Some(Line {
            crew,
            raised: RAISE.checked_sub(n)?,
        }),
        _ => None,
    }
}
