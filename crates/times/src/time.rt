// Instants and spans: two kinds of whole nanoseconds that do not mix (docs/RULES.md, section 6).
ghost use Rattle.std.specs.Prelude.{◌≡◌, int_lt};
ghost use Rattle.refusals.specs.declared.Refusal.TheVariants as Refusals;
ghost use Rattle.times.specs.Time.{is_exact, exact, span_between, instant_after, later_of, earlier_of};
ghost use Rattle.times.specs.Time.{instant_after_seconds, seconds_of, span_sum, span_of_seconds, instant_of_seconds};

use refusals::Refusal;

// An instant: nanoseconds since the start.
#[derive(Clone, Copy, PartialEq, Eq, PartialOrd, Ord)]
pub struct TimePoint(pub i64);

// A span: nanoseconds from one instant to another.
#[derive(Clone, Copy, PartialEq, Eq, PartialOrd, Ord)]
pub struct Duration(pub i64);

// A time passes 2^53 ns in size: refusal 7.
#[derive(Clone, Copy, PartialEq, Eq)]
pub struct Strayed;

impl From<Strayed> for Refusal {
    ghost from_gives = { λ _ why. why ≡ Refusals.Strayed };

    fn from(_why: Strayed) -> Refusal {
        Refusal::Strayed
    }
}

// The most nanoseconds in size that an instant or a span may have: 2^53.
const MOST: i64 = 9007199254740992;

// Whether a number of nanoseconds is at most 2^53 in size, by both of its ends: so the compiler knows the range of what is exact.
fn is_exact(ns: i64) -> bool
    ensures { result ≡ is_exact ns }
{
    -MOST <= ns && ns <= MOST
}

// The number itself, where it is.
fn exact(ns: i64) -> Result<i64, Strayed>
    ensures { result ≡ exact ns }
{
    if is_exact(ns) { Ok(ns) } else { Err(Strayed) }
}

// The seconds of a number of nanoseconds: one rounding to a double, one for the division.
fn seconds_of(ns: i64) -> f64
    ensures { result ≡ seconds_of ns }
{
    std::num::nearest_i64_to_f64(ns) / 1e9
}

impl TimePoint {
    // The span from an earlier instant to this one; below zero where `earlier` is the later.
    pub fn since(self, earlier: TimePoint) -> Result<Duration, Strayed>
        ensures { result ≡ span_between earlier self }
    {
        let d = exact(self.0)? - exact(earlier.0)?;
        Ok(Duration(exact(d)?))
    }

    // The instant a span after this one.
    pub fn plus(self, d: Duration) -> Result<TimePoint, Strayed>
        ensures { result ≡ instant_after self d }
    {
        let t = exact(self.0)? + exact(d.0)?;
        Ok(TimePoint(exact(t)?))
    }

    // The instant a number of seconds after this one.
    pub fn plus_secs_f64(self, seconds: f64) -> Result<TimePoint, Strayed>
        ensures { result ≡ instant_after_seconds self seconds }
    {
        self.plus(Duration::from_secs_f64(seconds)?)
    }

    // Whether it is at most 2^53 ns in size, as every instant must be that a call works out.
    pub fn is_exact(self) -> bool
        ensures { result ≡ is_exact self.0 }
    {
        is_exact(self.0)
    }

    // Whether this instant comes before another.
    pub fn is_before(self, other: TimePoint) -> bool
        ensures { result ≡ int_lt self.0 other.0 }
    {
        self < other
    }

    // The later of two instants.
    pub fn max(self, other: TimePoint) -> TimePoint
        ensures { result ≡ later_of self other }
    {
        if self < other { other } else { self }
    }

    // The earlier of two instants.
    pub fn min(self, other: TimePoint) -> TimePoint
        ensures { result ≡ earlier_of self other }
    {
        if other < self { other } else { self }
    }

    pub fn as_secs_f64(self) -> f64
        ensures { result ≡ seconds_of self.0 }
    {
        seconds_of(self.0)
    }

    // The instant that many seconds after the start.
    pub fn from_secs_f64(seconds: f64) -> Result<TimePoint, Strayed>
        ensures { result ≡ instant_of_seconds seconds }
    {
        let d = Duration::from_secs_f64(seconds)?;
        Ok(TimePoint(d.0))
    }
}

impl Duration {
    // Whether it is at most 2^53 ns in size, as every span must be that a call works out.
    pub fn is_exact(self) -> bool
        ensures { result ≡ is_exact self.0 }
    {
        is_exact(self.0)
    }

    // The sum of two spans.
    pub fn plus(self, other: Duration) -> Result<Duration, Strayed>
        ensures { result ≡ span_sum self other }
    {
        let d = exact(self.0)? + exact(other.0)?;
        Ok(Duration(exact(d)?))
    }

    // Whether this span is below another, by the sign too.
    pub fn is_below(self, other: Duration) -> bool
        ensures { result ≡ int_lt self.0 other.0 }
    {
        other > self
    }

    pub fn as_secs_f64(self) -> f64
        ensures { result ≡ seconds_of self.0 }
    {
        seconds_of(self.0)
    }

    // The nanoseconds of a number of seconds: one product, cut toward zero.
    pub fn from_secs_f64(seconds: f64) -> Result<Duration, Strayed>
        ensures { result ≡ span_of_seconds seconds }
    {
        let p = seconds * 1e9;
        if -9007199254740992.0 <= p && p <= 9007199254740992.0 {
            return Ok(Duration(std::num::truncating_f64_to_i64(p)));
        }
        Err(Strayed)
    }
}
