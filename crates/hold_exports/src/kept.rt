// A reading in the caller's memory between two calls (docs/RULES.md, 21.12): five words, then the three of each crew.
ghost use Rattle.std.specs.Prelude.{◌≡◌, ◌+◌, ◌≤◌, length};
ghost use Rattle.lent.specs.Outcome.{Gives, Handed};
ghost use Rattle.hold_exports.specs.Memory.{place_in, reading_in, figures_in, spelling, memory_words};

use hold_lines::place::Place;
use hold_year::year::Reading;
use lent::words;

// A place in three words: its kind, the crew's number, and the digits so far; 0 for what a place does not have.
#[derive(Clone, Copy)]
pub struct Spelt(pub u64, pub u64, pub u64);

// The place of a kind, with the crew's number and the digits that go with it.
#[tactic(auto, unfolding(crate::specs::Memory::place_in))]
fn place_of(kind: u64, crew: u64, digits: u64) -> Option<Place>
    ensures { result ≡ place_in kind crew digits }
{
    match kind {
        0 => Some(Place::Start),
        1 => Some(Place::Crew(digits)),
        2 => Some(Place::BeforeRound(crew)),
        3 => Some(Place::Round(crew, digits)),
        4 => Some(Place::BeforeHold(crew)),
        5 => Some(Place::BeforeSize(crew)),
        6 => Some(Place::Hold(crew, digits)),
        7 => Some(Place::Below(crew, digits)),
        _ => None,
    }
}

// How many words a memory has, and the first of them where it was begun.
const WORDS: usize = 197;

const BEGUN: u64 = 1;

// The reading that a memory holds: it has 197 words or more, the first is 1, and they name a place.
#[tactic(auto, unfolding(crate::specs::Memory::reading_in))]
pub(crate) fn reading_of(memory: &[u64]) -> Option<Reading>
    ensures { result ≡ reading_in memory.now }
{
    if memory.len() < WORDS || memory[0] != BEGUN {
        return None;
    }
    let place = place_of(memory[2], memory[3], memory[4])?;
    Some(Reading {
        lines: memory[1],
        place,
    })
}

// The crews' words of a memory that is long enough.
#[tactic(auto, unfolding(crate::specs::Memory::figures_in))]
pub(crate) fn figures_of(memory: &[u64]) -> [u64; 192]
    requires { 197 ≤ length memory.now }
    ensures { result ≡ figures_in memory.now }
{
    let mut figures = [0u64; 192];
    figures.copy_from_slice(&memory[5..197]);
    figures
}

// The three words of a place.
fn spell(place: Place) -> Spelt
    ensures { result ≡ spelling place }
{
    match place {
        Place::Start => Spelt(0, 0, 0),
        Place::Crew(digits) => Spelt(1, 0, digits),
        Place::BeforeRound(crew) => Spelt(2, crew, 0),
        Place::Round(crew, digits) => Spelt(3, crew, digits),
        Place::BeforeHold(crew) => Spelt(4, crew, 0),
        Place::BeforeSize(crew) => Spelt(5, crew, 0),
        Place::Hold(crew, digits) => Spelt(6, crew, digits),
        Place::Below(crew, digits) => Spelt(7, crew, digits),
        Place::Broken => Spelt(8, 0, 0),
    }
}

// Keeps a reading and the crews' 192 words, with zero behind them.
#[tactic(auto, unfolding(crate::specs::Memory::memory_words))]
pub(crate) fn keep(reading: Reading, figures: &[u64], memory: &mut [u64]) -> u64
    requires { length figures.now ≡ 192 }
    ensures { Handed (Gives (memory_words reading figures.now)) memory.old memory.new result }
{
    let Spelt(kind, crew, digits) = spell(reading.place);
    let mut kept = [0u64; 197];
    kept[..5].copy_from_slice(&[BEGUN, reading.lines, kind, crew, digits]);
    kept[5..].copy_from_slice(figures);
    words::hand_over(memory, &kept)
}
