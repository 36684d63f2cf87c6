// Why something is refused: document 01's answer numbers 1 to 13, each with what its `where` tells.
#![tactic(auto)]

ghost use Rattle.std.specs.Prelude.{◌≡◌};
ghost use Rattle.answers.specs.Numbered.{number_of, at_of, cycles_of};

mod pair; // pair.rt: two transitions

pub use pair::Pair;

// Why a table, an image, condition words or a report are refused. A record is counted from 0; an isolated name is a
// place, or 128 and a transition; a wrong record of an image is one of its 192, and 192 is an image of another length.
#[derive(Clone, Copy, Debug, PartialEq, Eq)]
pub enum Refusal {
    Length,
    Kind { record: usize },
    Field { record: usize },
    Twice { record: usize },
    Unknown { record: usize },
    NoPlace,
    NoTransition,
    Isolated { name: usize },
    Circle { transition: usize },
    Conflict { pair: Pair },
    State { record: usize },
    Words,
    Room,
    Full { place: usize, cycles: usize },
}

impl Refusal {
    // The page's number.
    pub fn number(self) -> usize
        ensures { result ≡ number_of self }
    {
        match self {
            Refusal::Length => 1,
            Refusal::Kind { .. } => 2,
            Refusal::Field { .. } => 3,
            Refusal::Twice { .. } => 4,
            Refusal::Unknown { .. } => 5,
            Refusal::NoPlace | Refusal::NoTransition => 6,
            Refusal::Isolated { .. } => 7,
            Refusal::Circle { .. } => 8,
            Refusal::Conflict { .. } => 9,
            Refusal::State { .. } => 10,
            Refusal::Words => 11,
            Refusal::Room => 12,
            Refusal::Full { .. } => 13,
        }
    }

    // The page's where.
    pub fn at(self) -> usize
        ensures { result ≡ at_of self }
    {
        match self {
            Refusal::Length | Refusal::NoPlace | Refusal::Words | Refusal::Room => 0,
            Refusal::NoTransition => 1,
            Refusal::Kind { record }
            | Refusal::Field { record }
            | Refusal::Twice { record }
            | Refusal::Unknown { record }
            | Refusal::State { record } => record,
            Refusal::Isolated { name } => name,
            Refusal::Circle { transition } => transition,
            Refusal::Conflict { pair } => 64 * pair.first + pair.second,
            Refusal::Full { place, .. } => place,
        }
    }

    // The cycles done before it: none but where a place would be full.
    pub fn cycles(self) -> usize
        ensures { result ≡ cycles_of self }
    {
        match self {
            Refusal::Full { cycles, .. } => cycles,
            _ => 0,
        }
    }
}
