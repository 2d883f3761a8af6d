// What an obstacle, a sweep and what follows it do to a candidate (docs/RULES.md, 12.4 and 12.10 to 12.17).
use times::time::TimePoint;

// One obstacle: it does not push; pushes to an instant; or pushes with no result.
#[derive(Clone, Copy, PartialEq, Eq)]
pub enum Adjustment {
    Quiet,
    Pushed(TimePoint),
    Lost,
}

// A sweep over all: none pushed; the candidate was pushed to an instant; or a push had no result.
#[derive(Clone, Copy, PartialEq, Eq)]
pub enum Swept {
    Still,
    Moved(TimePoint),
    Lost,
}

// What follows a sweep: the search ends; the candidate is listed and it ends; the next sweep begins at an instant; or the
// candidate is listed and the next sweep begins at an instant.
#[derive(Clone, Copy, PartialEq, Eq)]
pub enum Turn {
    Ends,
    Lists,
    Goes(TimePoint),
    ListsGoes(TimePoint),
}
