// The engine's calls over lent bytes: check, start, run, lookup. Each call has its answer table in docs/ENGINE.md.
#![tactic(auto)]

ghost use Rattle.std.specs.Prelude.{true, false, ◌≡◌, ◌≤◌, length};
ghost use Rattle.meaning.specs.Table.{table};
ghost use Rattle.meaning.specs.Defined.{bad_length};
ghost use Rattle.meaning.specs.Promise.{Checked, Started, Ran, LookedUp};
ghost use Rattle.rows.specs.Extent.{Roomy};
ghost use Rattle.answers.specs.Numbered.{check_told, run_told};
ghost use Rattle.engine.specs.Said.{RoomFor};

mod lent; // lent.rt: what is lent beside an accepted table

use answers::Refusal;
use rows::Filed;

// Is the length no multiple of 8, or above 8,192?
fn bad_length(t: &[u8]) -> bool
    ensures { result ≡ bad_length t.now }
{
    t.len() % 8 != 0 || 8192 < t.len()
}

// How many numbers need rows: one more than the highest byte 1, and no more than 128.
fn numbers(t: &[u8]) -> usize
    ensures { Roomy (table t.now) result × (result ≤ 128) }
{
    rows::extent(t).min(128)
}

// Are rows for 32 numbers and 256 records enough?
fn is_small(n: usize, bytes: usize) -> bool
    ensures { result ≡ true → (n ≤ 32) × (bytes ≤ 2048) }
{
    n <= 32 && bytes <= 2048
}

// Answers 2 to 9 with so many rows, of so many places, and so many links of post arcs: enough for the table.
fn check_in<const ROWS: usize, const PLACES: usize, const LINKS: usize>(
    t: &[u8],
    n: usize,
) -> Result<(), Refusal>
    requires right_length { bad_length t.now ≡ false }
    requires roomy { RoomFor t.now n ROWS PLACES LINKS }
    ensures { Checked t.now (check_told result) }
{
    let mut rows = [0u64; ROWS];
    let mut w = [[0u16; 64]; PLACES];
    let mut s = [[0u8; 64]; PLACES];
    let mut heads = [0u16; 64];
    let mut posts = [0u16; LINKS];
    let mut times = [0u32; 192];
    judge::judge(
        t, n, &mut rows, &mut w, &mut s, &mut heads, &mut posts, &mut times,
    )?;
    Ok(())
}

// check: answers 1 to 9 in the page's order, or accepted.
pub fn check(t: &[u8]) -> Result<(), Refusal>
    ensures { Checked t.now (check_told result) }
{
    if bad_length(t) {
        return Err(Refusal::Length);
    }
    let n = numbers(t);
    if is_small(n, t.len()) {
        check_in::<256, 32, 768>(t, n)
    } else {
        check_in::<1024, 128, 3072>(t, n)
    }
}

// start: answers 1 to 9, then 12 for an image that is not 768 bytes; accepted, the image is that of the fresh net. A
// refusal writes nothing.
pub fn start(t: &[u8], image: &mut [u8]) -> Result<(), Refusal>
    ensures { Started t.now image.old (check_told result) image.new }
{
    check(t)?;
    if image.len() != 768 {
        return Err(Refusal::Room);
    }
    state::fresh(t, image);
    Ok(())
}

// run with so many rows, of so many places, and so many links of post arcs: enough for the table.
fn run_in<const ROWS: usize, const PLACES: usize, const LINKS: usize>(
    t: &[u8],
    n: usize,
    image: &mut [u8],
    words: &[u8],
    report: &mut [u8],
) -> Result<usize, Refusal>
    requires right_length { bad_length t.now ≡ false }
    requires roomy { RoomFor t.now n ROWS PLACES LINKS }
    ensures { Ran t.now image.old words.now report.old (run_told result) image.new report.new }
{
    let mut rows = [0u64; ROWS];
    let mut w = [[0u16; 64]; PLACES];
    let mut s = [[0u8; 64]; PLACES];
    let mut heads = [0u16; 64];
    let mut posts = [0u16; LINKS];
    let mut times = [0u32; 192];
    let known = judge::judge(
        t, n, &mut rows, &mut w, &mut s, &mut heads, &mut posts, &mut times,
    )?;
    let filed = Filed {
        rows: &rows,
        weights: &w,
        sorts: &s,
        heads: &heads,
        posts: &posts,
        times: &times,
    };
    lent::proceed(n, known, image, words, report, &filed)
}

// run: answers 1 to 9, then 10, 11 and 12, then one cycle a word, and 13 at a cycle. A refusal before any cycle
// writes nothing; 13 keeps the finished cycles and nothing of the refused one.
pub fn run(t: &[u8], image: &mut [u8], words: &[u8], report: &mut [u8]) -> Result<usize, Refusal>
    ensures { Ran t.now image.old words.now report.old (run_told result) image.new report.new }
{
    if bad_length(t) {
        return Err(Refusal::Length);
    }
    let n = numbers(t);
    if is_small(n, t.len()) {
        run_in::<256, 32, 768>(t, n, image, words, report)
    } else {
        run_in::<1024, 128, 3072>(t, n, image, words, report)
    }
}

// The 24 bytes of one cycle, counted from 1, as that part of the report; an empty part for 0 and for a cycle that the
// report does not hold whole. It is no Option: `LookedUp` says where the empty part stands.
pub fn lookup(report: &[u8], cycle: usize) -> &[u8]
    ensures { LookedUp report.now report.entry.ref_ptr cycle result.now result.ref_ptr }
{
    if cycle == 0 {
        return &report[..0];
    }
    if cycle <= report.len() / 24 {
        let from = 24 * (cycle - 1);
        let to = from + 24;
        return &report[from..to];
    }
    &report[..0]
}
