// What the search for arrival times needs of an obstacle of the table (docs/RULES.md, 12.1).
ghost use Rattle.std.specs.Prelude.{◌≡◌};
ghost use Rattle.arrival_legs.specs.Track.{track_in};

use shapes::profile::CircularProfile;
use table::{reading, walked};

// The squared distance that its legs are held to, and its first and its last waypoint.
#[derive(Clone, Copy)]
pub struct Track {
    pub limit: f64,
    pub first: usize,
    pub last: usize,
}

// The track of obstacle o: it is held to the critical distance of the agent and the obstacle.
#[tactic(auto, unfolding(crate::specs::Track::track_in))]
pub fn track_of(p: CircularProfile, marks: &[u64; 417], places: &[f64; 800], o: usize) -> Track
    ensures { result ≡ track_in p marks.now places.now o }
{
    let other = reading::profile_at(places, o);
    Track {
        limit: p.critical_distance_squared_for(other),
        first: reading::first_of(marks, o),
        last: walked::last_of(marks, o),
    }
}
