// The square root: a double comes as it is, and its root leaves as one lent word.
ghost use Rattle.lent.specs.Outcome.{Handed};
ghost use Rattle.root.specs.Root.{root_of, root_outcome};

// The root of x, rounded to the nearest double.
#[unsafe(no_mangle)]
pub extern "C" fn igelbert_square_root(x: f64, out: &mut [u64]) -> u64
    ensures { Handed (root_outcome (root_of x)) out.old out.new result }
{
    number_exports::root_calls::igelbert_square_root(x, out)
}
