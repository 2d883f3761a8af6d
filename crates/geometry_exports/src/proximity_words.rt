// Positions, proximity, verdicts and stationary proximity.
ghost use Rattle.lent.specs.Outcome.{Handed};
ghost use Rattle.proximity.specs.Proximity.{proximity_outcome};
ghost use Rattle.proximity.specs.Asked.{position_outcome};
ghost use Rattle.conflicts.specs.Conflict.{verdict_outcome};
ghost use Rattle.line_proximity.specs.Stationary.{stay_outcome};
ghost use Rattle.geometry_exports.specs.Numbered.{numbered_outcome};

use conflicts::conflict::Verdict;
use lent::words;
use motions::motion::State;
use number_words::word;
use proximity::detect::Proximity;

pub fn give_position(p: Result<Option<State>, u64>, out: &mut [u64]) -> u64
    ensures { Handed (numbered_outcome position_outcome p) out.old out.new result }
{
    match p {
        Ok(Some(s)) => {
            let w = [
                1,
                word::of_double(s.place.x),
                word::of_double(s.place.y),
                word::of_double(s.velocity.x),
                word::of_double(s.velocity.y),
            ];
            words::hand_over(out, &w)
        }
        Ok(None) => words::hand_over(out, &[0]),
        Err(number) => words::refuse(out, number),
    }
}

pub fn give_proximity(p: Result<Proximity, u64>, out: &mut [u64]) -> u64
    ensures { Handed (numbered_outcome proximity_outcome p) out.old out.new result }
{
    match p {
        Ok(Proximity::Never) => words::hand_over(out, &[0]),
        Ok(Proximity::Enters(t)) => words::hand_over(out, &[1, word::of_signed(t.0)]),
        Ok(Proximity::Passes(t, u)) => {
            words::hand_over(out, &[2, word::of_signed(t.0), word::of_signed(u.0)])
        }
        Err(number) => words::refuse(out, number),
    }
}

pub fn give_verdict(v: Result<Verdict, u64>, out: &mut [u64]) -> u64
    ensures { Handed (numbered_outcome verdict_outcome v) out.old out.new result }
{
    match v {
        Ok(Verdict::Clear) => words::hand_over(out, &[0]),
        Ok(Verdict::Conflict) => words::hand_over(out, &[1]),
        Err(number) => words::refuse(out, number),
    }
}

pub fn give_stay(s: Result<Option<(f64, f64)>, u64>, out: &mut [u64]) -> u64
    ensures { Handed (numbered_outcome stay_outcome s) out.old out.new result }
{
    match s {
        Ok(Some((t, u))) => words::hand_over(out, &[2, word::of_double(t), word::of_double(u)]),
        Ok(None) => words::hand_over(out, &[0]),
        Err(number) => words::refuse(out, number),
    }
}
