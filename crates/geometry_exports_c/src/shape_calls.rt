// Distances and boxes: profiles, legs and bounds come as plain numbers.
ghost use Rattle.lent.specs.Outcome.{Handed};
ghost use Rattle.shapes.specs.Distance.{critical_distance, critical_distance_squared, follow_distance};
ghost use Rattle.domain.specs.Asked.{asked_distance, asked_box, asked_overlap, distance_outcome, box_outcome, overlap_outcome};
ghost use Rattle.table_checks.specs.Asked.{asked_hull, hull_outcome};
ghost use Rattle.shapes.specs.Plain.{plain_leg, plain_profile};

// How near two carts may stand.
#[unsafe(no_mangle)]
pub extern "C" fn igelbert_critical_distance(
    footprint: f64,
    follow: f64,
    footprint2: f64,
    follow2: f64,
    out: &mut [u64],
) -> u64
    ensures { Handed
        (distance_outcome
        (asked_distance (plain_profile footprint follow) (plain_profile footprint2 follow2)
        (critical_distance (plain_profile footprint follow) (plain_profile footprint2 follow2))))
        out.old out.new result }
{
    geometry_exports::shape_calls::igelbert_critical_distance(
        footprint, follow, footprint2, follow2, out,
    )
}

// That distance times itself.
#[unsafe(no_mangle)]
pub extern "C" fn igelbert_critical_distance_squared(
    footprint: f64,
    follow: f64,
    footprint2: f64,
    follow2: f64,
    out: &mut [u64],
) -> u64
    ensures { Handed
        (distance_outcome
        (asked_distance (plain_profile footprint follow) (plain_profile footprint2 follow2)
        (critical_distance_squared (plain_profile footprint follow) (plain_profile footprint2 follow2))))
        out.old out.new result }
{
    geometry_exports::shape_calls::igelbert_critical_distance_squared(
        footprint, follow, footprint2, follow2, out,
    )
}

// How far one cart stays behind another.
#[unsafe(no_mangle)]
pub extern "C" fn igelbert_follow_distance(
    footprint: f64,
    follow: f64,
    footprint2: f64,
    follow2: f64,
    out: &mut [u64],
) -> u64
    ensures { Handed
        (distance_outcome
        (asked_distance (plain_profile footprint follow) (plain_profile footprint2 follow2)
        (follow_distance (plain_profile footprint follow) (plain_profile footprint2 follow2))))
        out.old out.new result }
{
    geometry_exports::shape_calls::igelbert_follow_distance(
        footprint, follow, footprint2, follow2, out,
    )
}

// The box of a leg of the agent's.
#[unsafe(no_mangle)]
pub extern "C" fn igelbert_box_of_leg(
    footprint: f64,
    follow: f64,
    t0: i64,
    x0: f64,
    y0: f64,
    t1: i64,
    x1: f64,
    y1: f64,
    out: &mut [u64],
) -> u64
    ensures { Handed (box_outcome (asked_box (plain_profile footprint follow) (plain_leg t0 x0 y0 t1 x1 y1))) out.old
        out.new result }
{
    geometry_exports::shape_calls::igelbert_box_of_leg(
        footprint, follow, t0, x0, y0, t1, x1, y1, out,
    )
}

// The box of an obstacle's waypoints.
#[unsafe(no_mangle)]
pub extern "C" fn igelbert_box_of_obstacle(
    footprint: f64,
    follow: f64,
    times: &[i64],
    xs: &[f64],
    ys: &[f64],
    out: &mut [u64],
) -> u64
    ensures { Handed (hull_outcome (asked_hull (plain_profile footprint follow) times.now xs.now ys.now))
        out.old out.new result }
{
    geometry_exports::shape_calls::igelbert_box_of_obstacle(footprint, follow, times, xs, ys, out)
}

// Whether two boxes overlap.
#[unsafe(no_mangle)]
pub extern "C" fn igelbert_boxes_overlap(
    left: f64,
    bottom: f64,
    right: f64,
    top: f64,
    left2: f64,
    bottom2: f64,
    right2: f64,
    top2: f64,
    out: &mut [u64],
) -> u64
    ensures { Handed
        (overlap_outcome
        (asked_overlap (record { left = left; bottom = bottom; right = right; top = top })
        (record { left = left2; bottom = bottom2; right = right2; top = top2 })))
        out.old out.new result }
{
    geometry_exports::shape_calls::igelbert_boxes_overlap(
        left, bottom, right, top, left2, bottom2, right2, top2, out,
    )
}
