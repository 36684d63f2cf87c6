// The kinds of records.
ghost use Rattle.records.specs.Kinds.{Decodes};

// What a record is, in the order of its numbers, 1 to 7.
#[derive(Clone, Copy, Debug, PartialEq, Eq)]
pub enum Kind {
    Place = 1,
    Transition,
    Arc,
    Condition,
    Priority,
    Action,
    Function,
}

// A byte that is no kind's number.
#[derive(Clone, Copy, Debug, PartialEq, Eq)]
pub struct NoKind(pub u8);

impl TryFrom<u8> for Kind {
    type Error = NoKind;

    ghost try_from_gives = { Decodes };

    fn try_from(byte: u8) -> Result<Self, NoKind> {
        match byte {
            1 => Ok(Kind::Place),
            2 => Ok(Kind::Transition),
            3 => Ok(Kind::Arc),
            4 => Ok(Kind::Condition),
            5 => Ok(Kind::Priority),
            6 => Ok(Kind::Action),
            7 => Ok(Kind::Function),
            _ => Err(NoKind(byte)),
        }
    }
}
