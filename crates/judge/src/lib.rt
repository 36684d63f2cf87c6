// Answers 2 to 9 of a table, one stage after the other, and the rows of one that is accepted.
#![tactic(auto)]

ghost use Rattle.std.specs.Prelude.{false, ◌≡◌, ◌*◌, ◌≤◌, length};
ghost use Rattle.meaning.specs.Table.{table};
ghost use Rattle.meaning.specs.Defined.{bad_length};
ghost use Rattle.judge.specs.Judged.{FirstUnknown, FirstNone, JudgeAsks, Judges};

use answers::Refusal;
use rows::Declared;

// The first record that names an unknown. The records are asked only where the rows show one.
fn first_unknown(t: &[u8], rows: &[u64], known: Declared, n: usize) -> Option<usize>
    requires { 8 * n ≤ length rows.now }
    ensures { FirstUnknown (table t.now) rows.now known n result }
{
    if named::any_unknown(rows, known, n) {
        return named::first_unknown(t, known);
    }
    None
}

// A refusal where no place is declared, or else where no transition is.
fn first_none(known: Declared) -> Option<Refusal>
    ensures { FirstNone known result }
{
    if sets::union(known.low, known.high) == 0 {
        return Some(Refusal::NoPlace);
    }
    if known.transitions == 0 {
        return Some(Refusal::NoTransition);
    }
    None
}

// What a table declares, or the answer 2 to 9 that refuses it. Its length is right, and of its numbers none is at n
// or past it. The rows are lent empty, with room for the table; where it is accepted they hold its net, the priorities
// closed.
pub fn judge(
    t: &[u8],
    n: usize,
    rows: &mut [u64],
    w: &mut [[u16; 64]],
    s: &mut [[u8; 64]],
    heads: &mut [u16; 64],
    posts: &mut [u16],
    times: &mut [u32; 192],
) -> Result<Declared, Refusal>
    requires right_length { bad_length t.now ≡ false }
    requires judge_asks { JudgeAsks (table t.now) n rows.old w.old s.old heads.old posts.old times.old }
    ensures { Judges t.now n result rows.new w.new s.new heads.new
        posts.new times.new }
{
    let known = scan::scan(t, rows, w, s, heads, posts, times)?;
    if let Some(record) = first_unknown(t, rows, known, n) {
        return Err(Refusal::Unknown { record });
    }
    if let Some(refusal) = first_none(known) {
        return Err(refusal);
    }
    if let Some(name) = named::first_isolated(rows, known, n) {
        return Err(Refusal::Isolated { name });
    }
    let m = rows::transitions(n);
    closure::close(rows, m);
    if let Some(transition) = closure::circle(rows, m) {
        return Err(Refusal::Circle { transition });
    }
    let mut pairs = [0u64; 64];
    conflict::conflicts(rows, &mut pairs, n);
    if let Some(pair) = conflict::least(&pairs, rows, w, s, n) {
        return Err(Refusal::Conflict { pair });
    }
    Ok(known)
}
