// Instants and spans: nanoseconds come as they are, and answers leave as one lent word.
ghost use Rattle.std.specs.Prelude.{[], ◌∷◌};
ghost use Rattle.std.specs.Float.Ieee;
ghost use Rattle.std.specs.Float.{binary64};
ghost use Rattle.lent.specs.Outcome.{Handed, Gives};
ghost use Rattle.times.specs.Time.{span_between, instant_after, seconds_of, span_of_seconds};
ghost use Rattle.times.specs.Time.{instant_of_seconds, span_outcome, instant_outcome};

use crate::time_words;
use lent::words;
use number_words::word;
use times::time::{Duration, TimePoint};

// The span from the instant `earlier` to the instant `later`.
pub fn igelbert_span_between(earlier: i64, later: i64, out: &mut [u64]) -> u64
    ensures { Handed (span_outcome (span_between (record { 0 = earlier }) (record { 0 = later }))) out.old out.new result }
{
    time_words::give_span(TimePoint(later).since(TimePoint(earlier)), out)
}

// The instant a span after an instant.
pub fn igelbert_instant_after(instant: i64, span: i64, out: &mut [u64]) -> u64
    ensures { Handed (instant_outcome (instant_after (record { 0 = instant }) (record { 0 = span }))) out.old out.new result }
{
    time_words::give_instant(TimePoint(instant).plus(Duration(span)), out)
}

// The seconds of an instant, as a double.
pub fn igelbert_seconds_of_instant(instant: i64, out: &mut [u64]) -> u64
    ensures { Handed (Gives (Ieee.to_bits binary64 (seconds_of instant) ∷ [])) out.old out.new result }
{
    words::hand_over(out, &[word::of_double(TimePoint(instant).as_secs_f64())])
}

// The seconds of a span, as a double.
pub fn igelbert_seconds_of_span(span: i64, out: &mut [u64]) -> u64
    ensures { Handed (Gives (Ieee.to_bits binary64 (seconds_of span) ∷ [])) out.old out.new result }
{
    words::hand_over(out, &[word::of_double(Duration(span).as_secs_f64())])
}

// The instant that many seconds after the start.
pub fn igelbert_instant_of_seconds(seconds: f64, out: &mut [u64]) -> u64
    ensures { Handed (instant_outcome (instant_of_seconds seconds)) out.old out.new result }
{
    time_words::give_instant(TimePoint::from_secs_f64(seconds), out)
}

// The span of a number of seconds.
pub fn igelbert_span_of_seconds(seconds: f64, out: &mut [u64]) -> u64
    ensures { Handed (span_outcome (span_of_seconds seconds)) out.old out.new result }
{
    time_words::give_span(Duration::from_secs_f64(seconds), out)
}
