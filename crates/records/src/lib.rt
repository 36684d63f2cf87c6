// One record of a table: its columns as numbers, and whether it is one that the table of kinds shows (answers 2 and 3).
#![tactic(auto)]

ghost use Rattle.std.specs.Prelude.{◌≡◌, not, ◌&&◌, ◌||◌, ltb, eqb, get_or};
ghost use Rattle.meaning.specs.Table.{table};
ghost use Rattle.records.specs.Kinds.{kind_number, Examined};
ghost use Rattle.records.specs.Record.{Reads, kind_rows, interval_of};

mod kind; // kind.rt: the kinds of records

use answers::Refusal;
pub use kind::{Kind, NoKind};

// The columns of a record: byte 0, byte 1, byte 2, byte 3, bytes 4-5, bytes 6-7.
#[derive(Clone, Copy)]
pub struct Rec {
    pub kind: u8,
    pub one: u8,
    pub two: u8,
    pub sort: u8,
    pub four: u16,
    pub six: u16,
}

// Record r of a table; past the last whole record all is 0.
pub fn read(t: &[u8], r: usize) -> Rec
    ensures { Reads (table t.now) r result }
{
    if r < t.len() / 8 {
        let at = 8 * r;
        Rec {
            kind: t[at],
            one: t[at + 1],
            two: t[at + 2],
            sort: t[at + 3],
            four: numbers::two(t, at + 4),
            six: numbers::two(t, at + 6),
        }
    } else {
        Rec {
            kind: 0,
            one: 0,
            two: 0,
            sort: 0,
            four: 0,
            six: 0,
        }
    }
}

// The constant rows of kinds 1 to 7: the highest byte 1, byte 2, sort, bytes 4-5 and bytes 6-7, 0 where a column is not
// used.
const KINDS: [[u16; 5]; 7] = [
    [127, 0, 0, 65535, 0],
    [63, 0, 2, 65535, 65535],
    [127, 63, 3, 65535, 0],
    [63, 63, 1, 0, 0],
    [63, 63, 0, 0, 0],
    [127, 63, 0, 0, 0],
    [63, 63, 0, 0, 0],
];

// The rows of the kinds, made once for all records of a table.
pub fn kinds() -> [[u16; 5]; 7]
    ensures { result ≡ kind_rows }
{
    KINDS
}

// A transition's a and b are as its sort asks.
#[tactic(auto, unfolding(crate::specs::Record::interval_of, meaning::specs::Defined::interval))]
fn interval(sort: u8, a: u16, b: u16) -> bool
    ensures { result ≡ interval_of sort a b }
{
    match sort {
        0 => a == 0 && b == 0,
        1 => 1 <= a && a <= b && b <= 65534,
        2 => 1 <= a && b == 0,
        _ => false,
    }
}

// A weight of 0, or an interval that is not as its sort asks. Arcs, most of a table, are asked for first: a match over
// the kinds jumps through a table for each record, which took check a third more time on 1,024 records.
fn bad_value(kind: Kind, sort: u8, a: u16, b: u16) -> bool
    ensures { result ≡ ((eqb (kind_number kind) 3 && eqb a 0)
        || (eqb (kind_number kind) 2 && not (interval_of sort a b))) }
{
    if kind == Kind::Arc {
        return a == 0;
    }
    kind == Kind::Transition && !interval(sort, a, b)
}

// A column is above the highest value that the row of its kind allows.
fn over(row: &[u16; 5], one: u8, two: u8, four: u16, six: u16) -> bool
    ensures { result ≡ (ltb (get_or row.now 0 0) one || ltb (get_or row.now 1 0) two
        || ltb (get_or row.now 3 0) four || ltb (get_or row.now 4 0) six) }
{
    row[0] < u16::from(one) || row[1] < u16::from(two) || row[3] < four || row[4] < six
}

// The kind of record r, or the first of 2 and 3 that it meets: its kind and its sort exist, then each column is within
// the row of its kind.
pub fn examine(x: Rec, r: usize, kinds: &[[u16; 5]; 7]) -> Result<Kind, Refusal>
    requires { kinds.now ≡ kind_rows }
    ensures { Examined x r result }
{
    let Ok(kind) = Kind::try_from(x.kind) else {
        return Err(Refusal::Kind { record: r });
    };
    let row = &kinds[usize::from(x.kind) - 1];
    if row[2] < u16::from(x.sort) {
        return Err(Refusal::Kind { record: r });
    }
    if over(row, x.one, x.two, x.four, x.six) {
        return Err(Refusal::Field { record: r });
    }
    if bad_value(kind, x.sort, x.four, x.six) {
        return Err(Refusal::Field { record: r });
    }
    Ok(kind)
}
