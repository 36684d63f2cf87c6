// Two transitions, as the page's conflicts name them.
ghost use Rattle.std.specs.Prelude.{◌<◌};

// The first of them and the second.
#[derive(Clone, Copy, Debug, PartialEq, Eq)]
pub struct Pair {
    pub first: usize,
    pub second: usize,
    ghost low: { (first < 64) × (second < 64) },
}
