// Distances and boxes.
ghost use Rattle.lent.specs.Outcome.{Handed};
ghost use Rattle.domain.specs.Asked.{distance_outcome, box_outcome, overlap_outcome};
ghost use Rattle.table_checks.specs.Asked.{hull_outcome};
ghost use Rattle.geometry_exports.specs.Numbered.{numbered_outcome};

use lent::words;
use number_words::word;
use shapes::bounding_box::BoundingBox;

pub fn give_distance(d: Result<f64, u64>, out: &mut [u64]) -> u64
    ensures { Handed (numbered_outcome distance_outcome d) out.old out.new result }
{
    match d {
        Ok(x) => words::hand_over(out, &[word::of_double(x)]),
        Err(number) => words::refuse(out, number),
    }
}

pub fn give_box(b: Result<BoundingBox, u64>, out: &mut [u64]) -> u64
    ensures { Handed (numbered_outcome box_outcome b) out.old out.new result }
{
    match b {
        Ok(at) => {
            let w = [
                word::of_double(at.left),
                word::of_double(at.bottom),
                word::of_double(at.right),
                word::of_double(at.top),
            ];
            words::hand_over(out, &w)
        }
        Err(number) => words::refuse(out, number),
    }
}

pub fn give_hull(h: Result<Option<BoundingBox>, u64>, out: &mut [u64]) -> u64
    ensures { Handed (numbered_outcome hull_outcome h) out.old out.new result }
{
    match h {
        Ok(Some(at)) => {
            let w = [
                1,
                word::of_double(at.left),
                word::of_double(at.bottom),
                word::of_double(at.right),
                word::of_double(at.top),
            ];
            words::hand_over(out, &w)
        }
        Ok(None) => words::hand_over(out, &[0]),
        Err(number) => words::refuse(out, number),
    }
}

pub fn give_overlap(o: Result<bool, u64>, out: &mut [u64]) -> u64
    ensures { Handed (numbered_outcome overlap_outcome o) out.old out.new result }
{
    match o {
        Ok(together) => words::hand_over(out, &[u64::from(together)]),
        Err(number) => words::refuse(out, number),
    }
}
