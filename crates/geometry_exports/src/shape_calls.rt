// Distances and boxes: profiles, legs and bounds come as plain numbers.
ghost use Rattle.lent.specs.Outcome.{Handed};
ghost use Rattle.shapes.specs.Distance.{critical_distance, critical_distance_squared, follow_distance};
ghost use Rattle.domain.specs.Asked.{asked_distance, asked_box, asked_overlap, distance_outcome, box_outcome, overlap_outcome};
ghost use Rattle.table_checks.specs.Asked.{asked_hull, hull_outcome};
ghost use Rattle.shapes.specs.Plain.{plain_leg, plain_profile};

use crate::shape_words;
use domain::calls;
use shapes::bounding_box::BoundingBox;
use shapes::legs;
use shapes::profile::CircularProfile;

// How near two carts may stand.
pub fn igelbert_critical_distance(
    footprint: f64,
    follow: f64,
    footprint2: f64,
    follow2: f64,
    out: &mut [u64],
) -> u64
    ensures { Handed
        (distance_outcome
        (asked_distance (plain_profile footprint follow) (plain_profile footprint2 follow2)
        (critical_distance (plain_profile footprint follow) (plain_profile footprint2 follow2))))
        out.old out.new result }
{
    let p = CircularProfile { footprint, follow };
    let q = CircularProfile {
        footprint: footprint2,
        follow: follow2,
    };
    shape_words::give_distance(calls::critical_distance(p, q).map_err(u64::from), out)
}

// That distance times itself.
pub fn igelbert_critical_distance_squared(
    footprint: f64,
    follow: f64,
    footprint2: f64,
    follow2: f64,
    out: &mut [u64],
) -> u64
    ensures { Handed
        (distance_outcome
        (asked_distance (plain_profile footprint follow) (plain_profile footprint2 follow2)
        (critical_distance_squared (plain_profile footprint follow) (plain_profile footprint2 follow2))))
        out.old out.new result }
{
    let p = CircularProfile { footprint, follow };
    let q = CircularProfile {
        footprint: footprint2,
        follow: follow2,
    };
    shape_words::give_distance(
        calls::critical_distance_squared(p, q).map_err(u64::from),
        out,
    )
}

// How far one cart stays behind another.
pub fn igelbert_follow_distance(
    footprint: f64,
    follow: f64,
    footprint2: f64,
    follow2: f64,
    out: &mut [u64],
) -> u64
    ensures { Handed
        (distance_outcome
        (asked_distance (plain_profile footprint follow) (plain_profile footprint2 follow2)
        (follow_distance (plain_profile footprint follow) (plain_profile footprint2 follow2))))
        out.old out.new result }
{
    let p = CircularProfile { footprint, follow };
    let q = CircularProfile {
        footprint: footprint2,
        follow: follow2,
    };
    shape_words::give_distance(calls::follow_distance(p, q).map_err(u64::from), out)
}

// The box of a leg of the agent's.
pub fn igelbert_box_of_leg(
    footprint: f64,
    follow: f64,
    t0: i64,
    x0: f64,
    y0: f64,
    t1: i64,
    x1: f64,
    y1: f64,
    out: &mut [u64],
) -> u64
    ensures { Handed (box_outcome (asked_box (plain_profile footprint follow) (plain_leg t0 x0 y0 t1 x1 y1))) out.old
        out.new result }
{
    let p = CircularProfile { footprint, follow };
    let leg = legs::leg_of(t0, x0, y0, t1, x1, y1);
    shape_words::give_box(calls::box_of_leg(p, leg).map_err(u64::from), out)
}

// The box of an obstacle's waypoints.
pub fn igelbert_box_of_obstacle(
    footprint: f64,
    follow: f64,
    times: &[i64],
    xs: &[f64],
    ys: &[f64],
    out: &mut [u64],
) -> u64
    ensures { Handed (hull_outcome (asked_hull (plain_profile footprint follow) times.now xs.now ys.now))
        out.old out.new result }
{
    let p = CircularProfile { footprint, follow };
    shape_words::give_hull(
        table_checks::calls::box_of_obstacle(p, times, xs, ys).map_err(u64::from),
        out,
    )
}

// Whether two boxes overlap.
pub fn igelbert_boxes_overlap(
    left: f64,
    bottom: f64,
    right: f64,
    top: f64,
    left2: f64,
    bottom2: f64,
    right2: f64,
    top2: f64,
    out: &mut [u64],
) -> u64
    ensures { Handed
        (overlap_outcome
        (asked_overlap (record { left = left; bottom = bottom; right = right; top = top })
        (record { left = left2; bottom = bottom2; right = right2; top = top2 })))
        out.old out.new result }
{
    let p = BoundingBox {
        left,
        bottom,
        right,
        top,
    };
    let q = BoundingBox {
        left: left2,
        bottom: bottom2,
        right: right2,
        top: top2,
    };
    shape_words::give_overlap(calls::boxes_overlap(p, q).map_err(u64::from), out)
}
