// Trying a hint tries its children, and trying a child is trying a hint: the loop of `compute_safe_arrival_path` of the Rust as
// functions that call one another (docs/RULES.md, 13.10 to 13.22). The links of a chain that is found are put into a lent list on
// the way back.
ghost use Rattle.std.specs.Prelude.{◌≡◌, ◌-◌, ◌<◌, length};
ghost use Rattle.table.specs.Table.{obstacles_in};
ghost use Rattle.hint_list.specs.Words.{hints_in};
ghost use Rattle.path_search.specs.Handed.{HandsTried, HandsChain};
ghost use Rattle.path_chains.specs.Trying.{stop_in, to_parent, reaches, start_tried, hint_tried};
ghost use Rattle.path_chains.specs.Trying.{child_tried, children_tried, roots_tried, chain_from};

use hint_list::entries;
use path_search::trial::Trial;
use path_search::tried;
use path_search::tried::{Ending, Tried};
use path_tests::trip::Trip;
use path_tests::{tests, travel};
use refusals::Refusal;
use shapes::waypoint::Waypoint;

// The pops made so far, and how many may be made.
#[derive(Clone, Copy)]
pub struct Pops {
    pub made: u64,
    pub budget: u64,
}

// The waypoint of hint i.
#[tactic(auto, unfolding(crate::specs::Trying::stop_in))]
fn stop_at(hints: &[u64; 385], i: usize) -> Waypoint
    ensures { result ≡ stop_in (hints_in hints.now) i }
{
    let ranked = entries::hint_at(hints, i);
    let hint = ranked.hint;
    travel::waypoint_of(hint)
}

// Whether a child's reach is at most its parent's.
#[tactic(auto, unfolding(crate::specs::Trying::reaches))]
fn is_in_reach(hints: &[u64; 385], child: usize, i: usize) -> bool
    ensures { result ≡ reaches (hints_in hints.now) child i }
{
    let lower = entries::hint_at(hints, child);
    let upper = entries::hint_at(hints, i);
    lower.reach <= upper.reach
}

// Whether hint i can reach its parent, which is the goal where there is none.
#[tactic(auto, unfolding(crate::specs::Trying::to_parent))]
fn way_up(
    trip: Trip,
    hints: &[u64; 385],
    marks: &[u64; 417],
    places: &[f64; 800],
    i: usize,
    parent: Option<usize>,
) -> Result<Trial, Refusal>
    ensures { result ≡ to_parent trip (obstacles_in marks.now places.now) (hints_in hints.now) i
        parent }
{
    let from = stop_at(hints, i);
    match parent {
        None => tests::to_goal(trip, from, marks, places),
        Some(j) => {
            let end = stop_at(hints, j);
            tests::to_end(trip, from, end, marks, places)
        }
    }
}

// The own start of hint i.
#[tactic(auto, unfolding(crate::specs::Trying::starts_at, path_search::specs::Links::linked_by))]
fn try_start(
    trip: Trip,
    hints: &[u64; 385],
    marks: &[u64; 417],
    places: &[f64; 800],
    chain: &mut [u64; 65],
    i: usize,
    pops: u64,
) -> Tried
    ensures { HandsTried (start_tried trip (obstacles_in marks.now places.now) (hints_in hints.now) i pops)
        chain.old chain.new result }
{
    let stop = stop_at(hints, i);
    let trial = tests::from_start(trip, stop, marks, places);
    match trial {
        Ok(Trial::Passed) => {
            tried::add_link(chain, i);
            Tried::ended(Ok(Ending::Found), pops)
        }
        Ok(Trial::Failed) => Tried::ended(Ok(Ending::Unreached), pops),
        Err(why) => Tried::ended(Err(why), pops),
    }
}

// Hint i under its parent.
#[cycle(hint_search)]
fn try_hint(
    trip: Trip,
    hints: &[u64; 385],
    marks: &[u64; 417],
    places: &[f64; 800],
    chain: &mut [u64; 65],
    i: usize,
    parent: Option<usize>,
    pops: Pops,
) -> Tried
    ensures { HandsTried
        (hint_tried trip (obstacles_in marks.now places.now) (hints_in hints.now) pops.budget
        i parent pops.made)
        chain.old chain.new result }
{
    if pops.budget <= pops.made {
        return Tried::ended(Err(Refusal::Spent), pops.made);
    }
    let made = pops.made + 1;
    let trial = way_up(trip, hints, marks, places, i, parent);
    match trial {
        Ok(Trial::Passed) => {
            let more = Pops {
                made,
                budget: pops.budget,
            };
            try_children(trip, hints, marks, places, chain, i, more)
        }
        Ok(Trial::Failed) => Tried::ended(Ok(Ending::Blocked), made),
        Err(why) => Tried::ended(Err(why), made),
    }
}

// A child of hint i, where it is in reach; another is passed over.
#[cycle(hint_search)]
fn try_child(
    trip: Trip,
    hints: &[u64; 385],
    marks: &[u64; 417],
    places: &[f64; 800],
    chain: &mut [u64; 65],
    child: usize,
    i: usize,
    pops: Pops,
) -> Tried
    requires { child < i }
    ensures { HandsTried
        (child_tried trip (obstacles_in marks.now places.now) (hints_in hints.now) pops.budget
        child i pops.made)
        chain.old chain.new result }
{
    if is_in_reach(hints, child, i) {
        return try_hint(trip, hints, marks, places, chain, child, Some(i), pops);
    }
    Tried::ended(Ok(Ending::Unreached), pops.made)
}

// The children of hint i, the highest first, then its own start. After each child hint i is popped again.
#[cycle(hint_search)]
fn try_children(
    trip: Trip,
    hints: &[u64; 385],
    marks: &[u64; 417],
    places: &[f64; 800],
    chain: &mut [u64; 65],
    i: usize,
    pops: Pops,
) -> Tried
    ensures { HandsTried
        (children_tried trip (obstacles_in marks.now places.now) (hints_in hints.now)
        pops.budget i i pops.made)
        chain.old chain.new result }
{
    let budget = pops.budget;
    let mut made = pops.made;
    for k in (0..i).rev() {
        let tried = try_child(
            trip,
            hints,
            marks,
            places,
            chain,
            k,
            i,
            Pops { made, budget },
        );
        match tried.ending {
            Ok(Ending::Found) => {
                tried::add_link(chain, i);
                return tried;
            }
            Err(_) => return tried,
            Ok(Ending::Blocked | Ending::Unreached) => {}
        }
        made = tried.pops;
        if budget <= made {
            return Tried::ended(Err(Refusal::Spent), made);
        }
        made += 1;
    }
    try_start(trip, hints, marks, places, chain, i, made)
}

// The roots from one on: only one whose own way to the goal is blocked moves up.
fn try_roots(
    trip: Trip,
    hints: &[u64; 385],
    budget: u64,
    marks: &[u64; 417],
    places: &[f64; 800],
    chain: &mut [u64; 65],
    from: usize,
) -> Tried
    ensures { HandsChain
        (roots_tried trip (obstacles_in marks.now places.now) (hints_in hints.now) budget
        (length (hints_in hints.now) - from) from 0)
        chain.old chain.new result }
{
    let count = entries::count_of(hints);
    let mut made = 0;
    for root in from..count {
        let pops = Pops { made, budget };
        let tried = try_hint(trip, hints, marks, places, chain, root, None, pops);
        if tried.ending != Ok(Ending::Blocked) {
            return tried;
        }
        made = tried.pops;
    }
    Tried::ended(Ok(Ending::Unreached), made)
}

// The whole search from its first root: a chain, none (which is `Unreached`), or a refusal. The links of the chain are put into the
// lent list behind those that are there.
pub fn find_chain(
    trip: Trip,
    hints: &[u64; 385],
    budget: u64,
    first: Option<usize>,
    marks: &[u64; 417],
    places: &[f64; 800],
    chain: &mut [u64; 65],
) -> Tried
    ensures { HandsChain
        (chain_from trip (obstacles_in marks.now places.now) (hints_in hints.now) budget
        first)
        chain.old chain.new result }
{
    let Some(root) = first else {
        return Tried::ended(Ok(Ending::Unreached), 0);
    };
    if root < entries::count_of(hints) {
        return try_roots(trip, hints, budget, marks, places, chain, root);
    }
    if budget == 0 {
        return Tried::ended(Err(Refusal::Spent), 0);
    }
    Tried::ended(Ok(Ending::Unreached), 1)
}
