// A table read into rows in one pass over its records, each tested for 2, 3 and 4 on the way.
#![tactic(auto)]

ghost use Rattle.std.specs.Prelude.{true, false, cond, ◌≡◌, suc, ◌+◌, ◌*◌, ◌≤◌, ◌<◌, eqb, length, get_or, ℕ};
ghost use Rattle.meaning.specs.Bytes.{bit};
ghost use Rattle.meaning.specs.Table.{table};
ghost use Rattle.records.specs.Record.{alone};
ghost use Rattle.records.specs.Kinds.{kind_number};
ghost use Rattle.rows.specs.Filed.{kept_in};
ghost use Rattle.rows.specs.Rows.{row, inputs, givers, looks};
ghost use Rattle.scan.specs.Scan.{Entered, Kept, Room, InputKept, PostKept, TimesKept};
ghost use Rattle.scan.specs.Scan.{KeepAsks, Keeps, Blank, Scanned};

use answers::Refusal;
use records::{Kind, Rec};
use rows::{
    ACTIONS, BELOW, Declared, FIRST, FUNCTIONS, INPUTS, LAST, LIMIT, LOOKS, NEXT, PLACE, POSTS,
    TAKERS, WANTED_TRUE, WEIGHT,
};

// Sets bit y of row q. Was it set already?
fn enter(rows: &mut [u64], q: usize, y: usize) -> bool
    requires { (q < length rows.old) × (y < 64) }
    ensures value { result ≡ bit (get_or rows.old q 0) y }
    ensures entered { Entered rows.old q y rows.new }
{
    let alone = sets::single(y);
    let line = rows[q];
    if sets::meet(line, alone) {
        return true;
    }
    rows[q] = sets::union(line, alone);
    false
}

// Keeps an input arc: among those of its place, among those that take from it if it is basic, and its weight and sort.
// Was there one already?
fn keep_input(x: Rec, rows: &mut [u64], w: &mut [[u16; 64]], s: &mut [[u8; 64]]) -> bool
    requires room { Room x rows.old × (x.one < length w.old) × (x.one < length s.old) }
    requires kind_value { (x.kind ≡ 3) × (x.sort < 3) }
    ensures value { result ≡ bit (inputs rows.old x.one) x.two }
    ensures input_kept { InputKept x result rows.old w.old s.old
        rows.new w.new s.new }
{
    let p = usize::from(x.one);
    let t = usize::from(x.two);
    if enter(rows, 8 * p + INPUTS, t) {
        return true;
    }
    if x.sort == 0 {
        enter(rows, 8 * p + TAKERS, t);
    }
    w[p][t] = x.four;
    s[p][t] = x.sort;
    false
}

// Keeps a post arc, record r: among those of its place, and at the head of its transition's chain. Was there one
// already?
fn keep_post(x: Rec, r: usize, rows: &mut [u64], heads: &mut [u16; 64], posts: &mut [u16]) -> bool
    requires room { Room x rows.old × (r < 1024) × (3 * r + 3 ≤ length posts.old) }
    requires kind_value { (x.kind ≡ 3) × (x.sort ≡ 3) }
    ensures value { result ≡ bit (givers rows.old x.one) x.two }
    ensures post_kept { PostKept x r result rows.old heads.old posts.old
        rows.new heads.new posts.new }
{
    let t = usize::from(x.two);
    if enter(rows, 8 * usize::from(x.one) + POSTS, t) {
        return true;
    }
    posts[3 * r + PLACE] = u16::from(x.one);
    posts[3 * r + WEIGHT] = x.four;
    posts[3 * r + NEXT] = heads[t];
    // There are at most 1,024 records, so that the cast loses nothing; u16::try_from would ask again.
    heads[t] = (r + 1) as u16;
    false
}

// Keeps a condition: among those its transition looks at, and among those it wants true if so. Was there one already?
fn keep_condition(x: Rec, rows: &mut [u64]) -> bool
    requires { Room x rows.old × (x.kind ≡ 4) }
    ensures value { result ≡ bit (looks rows.old x.one) x.two }
    ensures kept { (result ≡ false → Kept x rows.old rows.new)
        × (length rows.new ≡ length rows.old) }
{
    let t = usize::from(x.one);
    let c = usize::from(x.two);
    if enter(rows, 8 * t + LOOKS, c) {
        return true;
    }
    if x.sort == 0 {
        enter(rows, 8 * t + WANTED_TRUE, c);
    }
    false
}

// How far a counter rises, of this sort, a and b: of sort 1 to b + 1, else to a.
fn limit_of(sort: u8, a: u16, b: u16) -> u32
    ensures { result ≡ cond (eqb sort 1) (suc b) a }
{
    if sort == 1 {
        u32::from(b) + 1
    } else {
        u32::from(a)
    }
}

// The last count in time: b, and of sort 2 the largest number, which stands for no end.
fn last_of(sort: u8, b: u16) -> u32
    ensures { result ≡ cond (eqb sort 2) 4294967295 b }
{
    if sort == 2 { 4294967295 } else { u32::from(b) }
}

// Keeps the times of a transition.
fn keep_times(x: Rec, times: &mut [u32; 192])
    requires { (x.one < 64) × (length times.old ≡ 192) }
    ensures { TimesKept x times.old times.new }
{
    let t = usize::from(x.one);
    times[3 * t + FIRST] = u32::from(x.four);
    times[3 * t + LIMIT] = limit_of(x.sort, x.four, x.six);
    times[3 * t + LAST] = last_of(x.sort, x.six);
}

// Keeps a record whose byte 2 stands in row c alone. Was there one already?
fn keep_alone(x: Rec, c: usize, rows: &mut [u64]) -> bool
    requires room { Room x rows.old × (c < 8) }
    requires own { (k : ℕ) → k < 8 → kept_in (alone x) k 0 ≡ eqb c k }
    ensures value { result ≡ bit (row rows.old c x.one) x.two }
    ensures kept { Kept x rows.old rows.new × (length rows.new ≡ length rows.old) }
{
    enter(rows, 8 * usize::from(x.one) + c, usize::from(x.two))
}

// Keeps record r, of this kind, whose own columns are in order: what is declared after it, or None where an earlier
// record said the same.
#[tactic(auto, using(crate::proofs::Sound::in_range))]
fn keep(
    x: Rec,
    kind: Kind,
    r: usize,
    known: Declared,
    rows: &mut [u64],
    w: &mut [[u16; 64]],
    s: &mut [[u8; 64]],
    heads: &mut [u16; 64],
    posts: &mut [u16],
    times: &mut [u32; 192],
) -> Option<Declared>
    requires kind_is { kind_number kind ≡ x.kind }
    requires keep_asks { KeepAsks x r rows.old w.old s.old heads.old posts.old times.old }
    ensures { Keeps x r known result rows.old w.old s.old heads.old
        posts.old times.old rows.new w.new s.new heads.new
        posts.new times.new }
{
    match kind {
        Kind::Place => {
            let p = usize::from(x.one);
            (!known.has_place(p)).then_some(known.with_place(p))
        }
        Kind::Transition => {
            keep_times(x, times);
            let t = usize::from(x.one);
            (!sets::has(known.transitions, t)).then_some(known.with_transition(t))
        }
        Kind::Arc if x.sort == 3 => (!keep_post(x, r, rows, heads, posts)).then_some(known),
        Kind::Arc => (!keep_input(x, rows, w, s)).then_some(known),
        Kind::Condition => (!keep_condition(x, rows)).then_some(known),
        Kind::Priority => (!keep_alone(x, BELOW, rows)).then_some(known),
        Kind::Action => (!keep_alone(x, ACTIONS, rows)).then_some(known),
        Kind::Function => (!keep_alone(x, FUNCTIONS, rows)).then_some(known),
    }
}

// Each record in order is tested for 2, 3 and 4, and the first that meets one is refused; else the answer is what is
// declared. The rows are lent empty, with room for the numbers and the records of the table, and hold all records where
// none has a fault.
pub fn scan(
    t: &[u8],
    rows: &mut [u64],
    w: &mut [[u16; 64]],
    s: &mut [[u8; 64]],
    heads: &mut [u16; 64],
    posts: &mut [u16],
    times: &mut [u32; 192],
) -> Result<Declared, Refusal>
    requires t_len_bound { length t.now ≤ 8192 }
    requires blank { Blank (table t.now) rows.old w.old s.old heads.old posts.old times.old }
    ensures { Scanned (table t.now) result rows.new w.new s.new
        heads.new posts.new times.new }
{
    let n = t.len() / 8;
    let kinds = records::kinds();
    let mut known = Declared::default();
    for r in 0..n {
        let x = records::read(t, r);
        let kind = records::examine(x, r, &kinds)?;
        known = keep(x, kind, r, known, rows, w, s, heads, posts, times).ok_or(Refusal::Twice {
            record: r,
        })?;
    }
    Ok(known)
}
