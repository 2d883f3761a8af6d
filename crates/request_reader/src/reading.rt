// The obstacles of a request, read into the packed table (docs/RULES.md, 14.8 to 14.12).
ghost use Rattle.std.specs.Prelude.{◌≡◌, true, ◌+◌, ◌≤◌, length};
ghost use Rattle.request_format.specs.Bits.{number_at};
ghost use Rattle.request_format.specs.Format.{points_at, obstacles_at, are_counted};
ghost use Rattle.table_packing.specs.Filling.{with_profile};
ghost use Rattle.request_reader.specs.Table.{double, request_profile};
ghost use Rattle.request_reader.specs.Laid.{PutPoints, PutTable};

use crate::fields;
use request_format::bits;
use shapes::profile::CircularProfile;
use table_packing::filling;

// Reads n waypoints from bit `at` on to the places of the table from `from` on.
fn put_points(
    s: &[u8],
    at: usize,
    n: usize,
    from: usize,
    marks: &mut [u64; 417],
    places: &mut [f64; 800],
)
    requires { (at ≤ 100_000) × (from + n ≤ 288) }
    ensures { PutPoints (points_at s.now at n) from marks.old marks.new places.old
        places.new }
{
    for i in 0..n {
        let w = fields::waypoint_at(s, at + 178 * i);
        filling::put_waypoint(marks, places, from + i, w);
    }
}

// Reads the three numbers of obstacle o, which stands at bit `at`.
fn put_numbers(s: &[u8], at: usize, o: usize, places: &mut [f64; 800])
    requires { at ≤ 100_000 }
    ensures { places.new ≡ with_profile places.old o
        (request_profile (number_at s.now at 64) (number_at s.now (at + 64) 64))
        (double (number_at s.now (at + 128) 64)) }
{
    let profile = CircularProfile {
        footprint: fields::double_at(s, at),
        follow: fields::double_at(s, at + 64),
    };
    filling::put_profile(places, o, profile, fields::double_at(s, at + 128));
}

// Reads obstacles whose counts are those of the table into one that is zero throughout.
#[tactic(auto, using(request_format::proofs::Counts::counts_told, crate::proofs::Counts::points_told))]
pub(crate) fn put_obstacles(
    s: &[u8],
    obstacles: usize,
    marks: &mut [u64; 417],
    places: &mut [f64; 800],
)
    requires counted { are_counted (obstacles_at s.now 510 obstacles) ≡ true }
    requires shaped { (length marks.old ≡ 417) × (length places.old ≡ 800) }
    ensures { PutTable (obstacles_at s.now 510 obstacles) marks.new places.new }
{
    filling::put_count(marks, obstacles);
    let mut at = 510;
    let mut from = 0;
    for o in 0..obstacles {
        let points = bits::number_at(s, at + 192, 9) as usize;
        filling::put_ends(marks, o, from, from + points);
        put_numbers(s, at, o, places);
        put_points(s, at + 201, points, from, marks, places);
        from += points;
        at += 201 + 178 * points;
    }
}
