// The box of each obstacle, worked out once from its waypoints and its footprint (docs/RULES.md, 7.10).
ghost use Rattle.std.specs.Prelude.{◌≡◌};
ghost use Rattle.lent.specs.Listed.{listed_to};
ghost use Rattle.table.specs.Obstacle.{box_of_trajectory};
ghost use Rattle.table.specs.Table.{waypoint_in};
ghost use Rattle.table_packing.specs.Filling.{own_box, boxes_in};

use crate::filling;
use shapes::bounding_box::BoundingBox;
use table::reading;

// The box of the waypoints from `from` up to `to`, grown by the footprint.
#[tactic(auto, using(crate::proofs::Widening::widening))]
fn for_trajectory(
    footprint: f64,
    marks: &[u64; 417],
    places: &[f64; 800],
    from: usize,
    to: usize,
) -> BoundingBox
    ensures { result ≡ box_of_trajectory footprint (listed_to (waypoint_in marks.now places.now) to from) }
{
    if to <= from {
        return BoundingBox {
            left: 0.0,
            bottom: 0.0,
            right: 0.0,
            top: 0.0,
        };
    }
    let w = reading::waypoint_at(marks, places, from);
    let mut b = BoundingBox::for_point(w.x, w.y);
    for i in from..to {
        let v = reading::waypoint_at(marks, places, i);
        b = b.incorporating(v.x, v.y);
    }
    b.inflated_by(footprint)
}

// The box of obstacle o.
#[tactic(auto, unfolding(crate::specs::Filling::own_box, table::specs::Table::waypoints_in))]
fn box_of(marks: &[u64; 417], places: &[f64; 800], o: usize) -> BoundingBox
    ensures { result ≡ own_box marks.now places.now o }
{
    let p = reading::profile_at(places, o);
    let from = reading::first_of(marks, o);
    let to = reading::end_of(marks, o);
    for_trajectory(p.footprint, marks, places, from, to)
}

// Puts the box of every obstacle at its place.
#[tactic(auto, using(crate::proofs::Stored::puts), unfolding(crate::specs::Filling::boxes_in))]
pub fn put_boxes(marks: &[u64; 417], places: &mut [f64; 800])
    ensures { places.new ≡ boxes_in marks.now places.old }
{
    for o in 0..reading::count_of(marks) {
        let b = box_of(marks, places, o);
        filling::put_box(places, o, b);
    }
}
