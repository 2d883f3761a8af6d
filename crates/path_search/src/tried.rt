// What trying a hint comes to, with the pops made so far, and the chain of hints that is found (docs/RULES.md, 13.10 to 13.23).
ghost use Rattle.std.specs.Prelude.{◌≡◌, length, get_or};
ghost use Rattle.path_search.specs.Links.{links_in, linked_to};
ghost use Rattle.path_search.specs.Handed.{tried_to};

use refusals::Refusal;

// A chain was found; the hint's way to its parent is not safe; or that way is safe, and no way to the hint is.
#[derive(Clone, Copy, PartialEq, Eq)]
pub enum Ending {
    Found,
    Blocked,
    Unreached,
}

// How trying ended, or why it was refused, and the pops made so far. A chain that was found stands in a list that the caller lends:
// the count of its links, then they, hints by their index, the first to be waited at first.
#[derive(Clone, Copy, PartialEq, Eq)]
pub struct Tried {
    pub ending: Result<Ending, Refusal>,
    pub pops: u64,
}

impl Tried {
    pub fn ended(ending: Result<Ending, Refusal>, pops: u64) -> Tried
        ensures { result ≡ tried_to ending pops }
    {
        Tried { ending, pops }
    }
}

// How many links a chain has.
pub fn links_of(chain: &[u64; 65]) -> usize
    ensures { result ≡ length (links_in chain.now) }
{
    let n = chain[0];
    if 64 < n {
        return 64;
    }
    n as usize
}

// Link k of a chain, and 0 where there is none.
pub fn link_at(chain: &[u64; 65], k: usize) -> usize
    ensures { result ≡ get_or (links_in chain.now) k 0 }
{
    if k < links_of(chain) {
        return chain[k + 1] as usize;
    }
    0
}

// One link more behind the others, where there is room.
#[tactic(auto, unfolding(crate::specs::Links::linked_to))]
pub fn add_link(chain: &mut [u64; 65], i: usize)
    ensures { chain.new ≡ linked_to chain.old i }
{
    let n = chain[0];
    if n < 64 {
        chain[n as usize + 1] = i as u64;
        chain[0] = n + 1;
    }
}
