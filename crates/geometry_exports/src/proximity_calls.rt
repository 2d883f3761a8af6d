// Motion, proximity and conflict: legs and profiles come as plain numbers.
ghost use Rattle.lent.specs.Outcome.{Handed};
ghost use Rattle.proximity.specs.Proximity.{proximity_outcome};
ghost use Rattle.proximity.specs.Asked.{asked_position, asked_proximity, position_outcome};
ghost use Rattle.conflicts.specs.Conflict.{verdict_outcome};
ghost use Rattle.conflicts.specs.Asked.{asked_conflict};
ghost use Rattle.shapes.specs.Plain.{plain_leg, plain_profile};

use crate::proximity_words;
use proximity::calls;
use shapes::legs;
use shapes::profile::CircularProfile;
use times::time::TimePoint;

// Where a leg of the agent's is at the instant t, and how fast it goes.
pub fn igelbert_position(
    t0: i64,
    x0: f64,
    y0: f64,
    t1: i64,
    x1: f64,
    y1: f64,
    t: i64,
    out: &mut [u64],
) -> u64
    ensures { Handed (position_outcome (asked_position (plain_leg t0 x0 y0 t1 x1 y1) (record { 0 = t }))) out.old
        out.new result }
{
    let leg = legs::leg_of(t0, x0, y0, t1, x1, y1);
    proximity_words::give_position(calls::position(leg, TimePoint(t)).map_err(u64::from), out)
}

// When the agent's leg, from 0 to 1, and an obstacle's, from 2 to 3, come within a squared distance and when they leave it.
pub fn igelbert_detect_proximity(
    limit: f64,
    t0: i64,
    x0: f64,
    y0: f64,
    t1: i64,
    x1: f64,
    y1: f64,
    t2: i64,
    x2: f64,
    y2: f64,
    t3: i64,
    x3: f64,
    y3: f64,
    out: &mut [u64],
) -> u64
    ensures { Handed (proximity_outcome (asked_proximity limit (plain_leg t0 x0 y0 t1 x1 y1) (plain_leg t2 x2 y2 t3 x3 y3)))
        out.old out.new result }
{
    let agent = legs::leg_of(t0, x0, y0, t1, x1, y1);
    let obstacle = legs::leg_of(t2, x2, y2, t3, x3, y3);
    proximity_words::give_proximity(
        calls::proximity(limit, agent, obstacle).map_err(u64::from),
        out,
    )
}

// Whether the agent's leg, from 0 to 1, and an obstacle's, from 2 to 3, are in conflict.
pub fn igelbert_have_conflict(
    footprint: f64,
    follow: f64,
    t0: i64,
    x0: f64,
    y0: f64,
    t1: i64,
    x1: f64,
    y1: f64,
    footprint2: f64,
    follow2: f64,
    t2: i64,
    x2: f64,
    y2: f64,
    t3: i64,
    x3: f64,
    y3: f64,
    limit: f64,
    out: &mut [u64],
) -> u64
    ensures { Handed
        (verdict_outcome
        (asked_conflict (plain_profile footprint follow) (plain_leg t0 x0 y0 t1 x1 y1) (plain_profile footprint2 follow2)
        (plain_leg t2 x2 y2 t3 x3 y3) limit))
        out.old out.new result }
{
    let p = CircularProfile { footprint, follow };
    let agent = legs::leg_of(t0, x0, y0, t1, x1, y1);
    let q = CircularProfile {
        footprint: footprint2,
        follow: follow2,
    };
    let obstacle = legs::leg_of(t2, x2, y2, t3, x3, y3);
    proximity_words::give_verdict(
        conflicts::calls::conflict(p, agent, q, obstacle, limit).map_err(u64::from),
        out,
    )
}
