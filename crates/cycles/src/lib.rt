// The cycles of a call: the rows laid out for them, then one cycle a word, from the image that is lent into the report
// that is lent.
#![tactic(auto)]

ghost use Rattle.std.specs.Prelude.{true, false, not, ◌++◌, ◌≡◌, ℕ, ◌+◌, ◌*◌, ◌^◌, ◌≤◌, ◌<◌, eqb};
ghost use Rattle.std.specs.Prelude.{length, get_or, take, drop};
ghost use Rattle.meaning.specs.Bytes.{bit, bytes};
ghost use Rattle.rows.specs.Rows.{looks, limit_of};
ghost use Rattle.arcs.specs.Arcs.{Rivals};
ghost use Rattle.levels.specs.Levels.{Levels};
ghost use Rattle.cycles.specs.Lay.{LayAsks, Lays, LevelAsks};
ghost use Rattle.cycles.specs.Cycles.{CyclesAsks, Cycled, PlayAsks, Played};

use answers::Refusal;
use levels::Kept;
use marking::Moves;
use rows::{Filed, LIMIT, LOOKS, Net};
use state::State;

// The timed transitions of the first m: those whose counters rise. From m on none does.
#[tactic(auto, using(sets::proofs::Walk::no_number))]
fn timed(times: &[u32; 192], m: usize) -> u64
    requires { (m ≤ 64) × ((t : ℕ) → m ≤ t → t < 64 → limit_of times.now t ≡ 0) }
    ensures { (t : ℕ) → t < 64 → bit result t ≡ not (eqb (limit_of times.now t) 0) }
{
    let mut r = 0u64;
    for t in 0..m {
        if times[3 * t + LIMIT] != 0 {
            r = sets::union(r, sets::single(t));
        }
    }
    r
}

// The transitions with conditions of the first m. From m on none has any. Each row is a set of at most 64.
#[tactic(auto, using(sets::proofs::Walk::no_number))]
fn conditional(rows: &[u64], m: usize) -> u64
    requires room { (m ≤ 64) × (8 * m ≤ length rows.now) }
    requires none_past { (t k : ℕ) → m ≤ t → t < 64 → k < 64 → bit (looks rows.now t) k ≡ false }
    ensures tells { (t : ℕ) → t < 64 → bit result t ≡ not (eqb (looks rows.now t) 0) }
    ensures low { (t : ℕ) → bit result t ≡ true → t < m }
    ensures words { (i : ℕ) → get_or rows.now i 0 < 2 ^ 64 }
{
    let mut r = 0u64;
    for t in 0..m {
        if rows[8 * t + LOOKS] != 0 {
            r = sets::union(r, sets::single(t));
        }
    }
    r
}

// What the cycles ask of a net whose table is filed, none of its numbers at n or past it; `arcs` has the places and
// rivals of its transitions, `lower` those with rivals.
fn lay<'a>(filed: &'a Filed<'_>, arcs: &'a [u64; 320], lower: u64, known: u64, n: usize) -> Net<'a>
    requires { LayAsks n filed.now.rows.now filed.now.times.now × Rivals filed.now.rows.now arcs.now lower }
    ensures { Lays n known filed.now.rows.now filed.now.weights.now filed.now.sorts.now filed.now.heads.now
        filed.now.posts.now filed.now.times.now result }
{
    let m = rows::transitions(n);
    Net {
        rows: &filed.rows[..],
        weights: &filed.weights[..],
        sorts: &filed.sorts[..],
        heads: &*filed.heads,
        posts: &filed.posts[..],
        times: &*filed.times,
        arcs,
        eights: n.div_ceil(8),
        known,
        timed: timed(filed.times, m),
        conditional: conditional(filed.rows, m),
        lower,
    }
}

// What is kept of each place of the net is made for its tokens; past them there is nothing to keep. It is lent as
// zeros.
#[tactic(auto, using(crate::proofs::Levelled::none_yet, crate::proofs::Levelled::all_levelled))]
fn level(net: &Net<'_>, tokens: &[u32; 128], kept: &mut Kept)
    requires { LevelAsks net.now tokens.now kept.old }
    ensures { Levels net.now.rows.now net.now.weights.now net.now.sorts.now tokens.now kept.new }
{
    for p in 0..8 * net.eights {
        levels::relevel(net, p, tokens[p], kept);
    }
}

// The record of a cycle: its three sets, eight bytes each.
#[tactic(auto, using(numbers::proofs::Stored::three))]
fn write(report: &mut [u8], at: usize, fired: u64, actions: u64, functions: u64)
    requires { at + 24 ≤ length report.old }
    ensures { report.new ≡ take at report.old
        ++ (bytes 8 fired ++ bytes 8 actions ++ bytes 8 functions) ++ drop (at + 24) report.old }
{
    numbers::put_eight(report, at, fired);
    numbers::put_eight(report, at + 8, actions);
    numbers::put_eight(report, at + 16, functions);
}

// A cycle that is refused: the lowest place that would be full, and the cycles finished before it.
#[derive(Clone, Copy, Debug)]
struct Full {
    place: usize,
    done: usize,
}

// One cycle for each of the first `count` words, from the state that the image holds, until one is refused. Each
// finished cycle writes its record; where none is refused, the image becomes that of the state after the last.
fn cycles(
    net: &Net<'_>,
    image: &mut [u8],
    words: &[u8],
    count: usize,
    report: &mut [u8],
) -> Result<(), Full>
    requires { CyclesAsks net.now image.old words.now count report.old }
    ensures { Cycled net.now image.old words.now count report.old result image.new report.new }
{
    // What begins empty is made before the image is read: behind it, a kilobyte was cleared twice.
    let mut kept = Kept {
        held: [0; 128],
        active: [0; 128],
        lacks: [0; 128],
        from: [0; 128],
        upto: [0; 128],
        left: [0; 128],
    };
    let mut moves = Moves {
        taken: [0; 128],
        put: [0; 128],
    };
    let mut state = State {
        tokens: [0; 128],
        counters: [0; 64],
        orders: 0,
    };
    state::load(image, 8 * net.eights, &mut state);
    level(net, &state.tokens, &mut kept);
    for i in 0..count {
        let word = numbers::eight(words, 8 * i);
        let r = turn::step(net, &mut state, &mut kept, &mut moves, word);
        if let Some(place) = r.full {
            return Err(Full { place, done: i });
        }
        write(report, 24 * i, r.fired, r.actions, r.functions);
    }
    state::save(image, &state, 8 * net.eights);
    Ok(())
}

// The cycles of a call whose checks are passed. Where a cycle is refused the image is as it was, and the cycles before
// it are done again from there; so nothing of the refused one is kept.
pub fn play(
    n: usize,
    known: u64,
    image: &mut [u8],
    words: &[u8],
    report: &mut [u8],
    filed: &Filed<'_>,
) -> Result<usize, Refusal>
    requires { PlayAsks n known image.old words.now report.old filed.now.rows.now filed.now.times.now
        filed.now.weights.now filed.now.sorts.now filed.now.heads.now filed.now.posts.now }
    ensures { Played n known image.old words.now report.old filed.now.rows.now filed.now.times.now
        filed.now.weights.now filed.now.sorts.now filed.now.heads.now filed.now.posts.now result image.new report.new }
{
    let count = words.len() / 8;
    if count == 0 {
        return Ok(0);
    }
    let mut arcs = [0u64; 320];
    arcs::turn(filed.rows, &mut arcs, n);
    let lower = arcs::rivals(filed.rows, &mut arcs, rows::transitions(n));
    let net = lay(filed, &arcs, lower, known, n);
    match cycles(&net, image, words, count, report) {
        Ok(()) => Ok(count),
        Err(Full { place, done }) => {
            if done != 0 {
                cycles(&net, image, words, done, report).unwrap();
            }
            Err(Refusal::Full {
                place,
                cycles: done,
            })
        }
    }
}
