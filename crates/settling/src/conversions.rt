// A sample that is converted.
ghost use Rattle.std.specs.Prelude.{◌≡◌};

#[derive(Clone, Copy)]
pub struct Wrapped(pub u64);

impl From<Wrapped> for u64 {
    ghost from_gives = { λ x n. n ≡ x.0 };

    fn from(x: Wrapped) -> u64 {
        x.0
    }
}
