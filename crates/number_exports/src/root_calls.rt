// The square root: a double comes as it is, and its root leaves as one lent word.
ghost use Rattle.lent.specs.Outcome.{Handed};
ghost use Rattle.root.specs.Root.{root_of, root_outcome};

use lent::words;
use number_words::word;
use refusals::Refusal;
use root::nearest;

// The root of x, rounded to the nearest double.
pub fn igelbert_square_root(x: f64, out: &mut [u64]) -> u64
    ensures { Handed (root_outcome (root_of x)) out.old out.new result }
{
    match nearest::square_root(x) {
        Ok(y) => words::hand_over(out, &[word::of_double(y)]),
        Err(why) => words::refuse(out, u64::from(Refusal::from(why))),
    }
}
