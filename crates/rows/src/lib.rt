// The rows that a table is read into, by name, and which places and transitions it declares.
#![tactic(auto)]

ghost use Rattle.std.specs.Prelude.{◌||◌, ◌≡◌, ℕ, ◌<◌, eqb};
ghost use Rattle.meaning.specs.Bytes.{bit};
ghost use Rattle.meaning.specs.Table.{table};
ghost use Rattle.rows.specs.Rows.{has, transitions_below};
ghost use Rattle.rows.specs.Extent.{extent_of};

// Eight rows for each number, row c of number i at 8 * i + c. Of place p: the transitions with an input arc from it,
// those of them with a basic arc, the transitions with a post arc to it, and its actions. Of transition t: the
// conditions it looks at, those of them it wants true, its functions, and the transitions below it.
pub const INPUTS: usize = 0;

pub const TAKERS: usize = 1;

pub const POSTS: usize = 2;

pub const ACTIONS: usize = 3;

pub const LOOKS: usize = 4;

pub const WANTED_TRUE: usize = 5;

pub const FUNCTIONS: usize = 6;

pub const BELOW: usize = 7;

// Three numbers for each transition, at 3 * t: the first count in time, how far its counter rises (0 if it is untimed),
// and the last count in time.
pub const FIRST: usize = 0;

pub const LIMIT: usize = 1;

pub const LAST: usize = 2;

// Three numbers for each post arc, at three times its record: its place, its weight, and the next post arc of its
// transition (one more than its record, 0 for none).
pub const PLACE: usize = 0;

pub const WEIGHT: usize = 1;

pub const NEXT: usize = 2;

// A table as its records are filed, lent to be read: its rows, eight for each number; the weight and the sort of each
// input arc, place by transition; the post arcs, a chain for each transition; and the times of each transition.
#[derive(Clone, Copy)]
pub struct Filed<'a> {
    pub rows: &'a [u64],
    pub weights: &'a [[u16; 64]],
    pub sorts: &'a [[u8; 64]],
    pub heads: &'a [u16; 64],
    pub posts: &'a [u16],
    pub times: &'a [u32; 192],
}

// What a cycle asks of a net: its table as it is filed; the places and the rivals of each transition; how many eights
// its numbers fill; and its transitions that are declared, timed, have conditions, and have rivals.
#[derive(Clone, Copy)]
pub struct Net<'a> {
    pub rows: &'a [u64],
    pub weights: &'a [[u16; 64]],
    pub sorts: &'a [[u8; 64]],
    pub heads: &'a [u16; 64],
    pub posts: &'a [u16],
    pub times: &'a [u32; 192],
    pub arcs: &'a [u64; 320],
    pub eights: usize,
    pub known: u64,
    pub timed: u64,
    pub conditional: u64,
    pub lower: u64,
}

// The declared places, 0 to 63 and 64 to 127, and the declared transitions; none to begin with.
#[derive(Clone, Copy, Default)]
pub struct Declared {
    pub low: u64,
    pub high: u64,
    pub transitions: u64,
}

impl Declared {
    // Is place p declared?
    pub fn has_place(self, p: usize) -> bool
        ensures { result ≡ has self p }
    {
        if p < 64 {
            sets::has(self.low, p)
        } else {
            sets::has(self.high, p - 64)
        }
    }

    // The same with place p.
    pub fn with_place(self, p: usize) -> Declared
        requires { p < 128 }
        ensures { ((q : ℕ) → q < 128 → has result q ≡ (has self q || eqb p q))
            × (result.transitions ≡ self.transitions) }
    {
        if p < 64 {
            Declared {
                low: sets::union(self.low, sets::single(p)),
                ..self
            }
        } else {
            Declared {
                high: sets::union(self.high, sets::single(p - 64)),
                ..self
            }
        }
    }

    // The same with transition t.
    pub fn with_transition(self, t: usize) -> Declared
        requires { t < 64 }
        ensures { ((u : ℕ) → bit result.transitions u ≡ (bit self.transitions u || eqb t u))
            × ((q : ℕ) → has result q ≡ has self q) }
    {
        Declared {
            transitions: sets::union(self.transitions, sets::single(t)),
            ..self
        }
    }
}

// Of the numbers below n, how many a transition can have: n, but no more than 64.
pub fn transitions(n: usize) -> usize
    ensures { result ≡ transitions_below n }
{
    n.min(64)
}

// One more than the highest byte 1 of the records.
pub fn extent(t: &[u8]) -> usize
    ensures { result ≡ extent_of (table t.now) }
{
    let mut high = 0;
    for r in 0..t.len() / 8 {
        high = t[8 * r + 1].max(high);
    }
    usize::from(high) + 1
}
