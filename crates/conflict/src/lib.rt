// The transitions in conflict, and the least pair of them that nothing settles (answer 9).
#![tactic(auto)]

ghost use Rattle.std.specs.Prelude.{◌≡◌, ◌+◌, ◌*◌, ◌≤◌, ◌<◌, length, get_or, replicate};
ghost use Rattle.meaning.specs.Below.{some};
ghost use Rattle.conflict.specs.Pairs.{PairedUp, TakerlessFrom, Conflicts};
ghost use Rattle.conflict.specs.Settled.{LeastAsks, There};
ghost use Rattle.conflict.specs.Settled.{crossed_in, apart_by, apart_in, settled_in, unsettled_by, IsLeast};

use answers::Pair;
use rows::{BELOW, INPUTS, LOOKS, TAKERS, WANTED_TRUE};

// The sort of an inhibitor arc.
const INHIBITOR: u8 = 2;

// Each two who take from one place are in conflict: the later gets into the row of the earlier.
fn pair_up(pairs: &mut [u64; 64], takers: u64)
    requires { length pairs.old ≡ 64 }
    ensures { PairedUp pairs.old takers pairs.new }
{
    let mut others = sets::members(takers);
    // Each turn reads what the walk has left, which a for keeps to itself.
    while let Some(i) = others.next() {
        pairs[i] = sets::union(pairs[i], others.left);
    }
}

// For each transition i the later ones in conflict with it. From place n on nobody takes; the rows of the pairs are
// lent empty.
pub fn conflicts(rows: &[u64], pairs: &mut [u64; 64], n: usize)
    requires { TakerlessFrom n rows.now × (pairs.old ≡ replicate 64 0) }
    ensures { Conflicts rows.now pairs.new }
{
    for p in 0..n {
        pair_up(pairs, rows[8 * p + TAKERS]);
    }
}

// Does one want a condition true that the other wants false?
#[tactic(auto, unfolding(crate::specs::Settled::crossed_in))]
fn crossed(rows: &[u64], i: usize, j: usize) -> bool
    requires { (8 * i + 8 ≤ length rows.now) × (8 * j + 8 ≤ length rows.now) }
    ensures { result ≡ crossed_in rows.now i j }
{
    let mine = rows[8 * i + WANTED_TRUE];
    let other = rows[8 * j + WANTED_TRUE];
    sets::meet(mine, sets::less(rows[8 * j + LOOKS], other))
        || sets::meet(sets::less(rows[8 * i + LOOKS], mine), other)
}

// Does a place tell them apart: an inhibitor arc to the one, a basic or test arc of equal weight to the other?
#[tactic(auto, unfolding(crate::specs::Settled::apart_by))]
fn apart_at(inputs: u64, w: &[u16; 64], s: &[u8; 64], i: usize, j: usize) -> bool
    requires { (i < 64) × (j < 64) }
    ensures { result ≡ apart_by inputs w.now s.now i j }
{
    sets::has(inputs, i)
        && sets::has(inputs, j)
        && w[i] == w[j]
        && (s[i] == INHIBITOR) != (s[j] == INHIBITOR)
}

// Does one of the first n places?
fn apart(rows: &[u64], w: &[[u16; 64]], s: &[[u8; 64]], n: usize, i: usize, j: usize) -> bool
    requires { (i < 64) × (j < 64) × There n rows.now w.now s.now }
    ensures { result ≡ some n (apart_in rows.now w.now s.now i j) }
{
    (0..n).any(|p| apart_at(rows[8 * p + INPUTS], &w[p], &s[p], i, j))
}

// Is the pair settled: by priority, by conditions, or by an inhibitor arc?
#[tactic(auto, unfolding(crate::specs::Settled::settled_in))]
fn settled(rows: &[u64], w: &[[u16; 64]], s: &[[u8; 64]], n: usize, i: usize, j: usize) -> bool
    requires i_bound { (i < 64) × (j < 64) × (8 * i + 8 ≤ length rows.now) × (8 * j + 8 ≤ length rows.now) }
    requires there { There n rows.now w.now s.now }
    ensures { result ≡ settled_in rows.now w.now s.now n i j }
{
    sets::has(rows[8 * i + BELOW], j)
        || sets::has(rows[8 * j + BELOW], i)
        || crossed(rows, i, j)
        || apart(rows, w, s, n, i, j)
}

// The later ones in conflict with transition i.
fn later(pairs: &[u64; 64], i: usize) -> u64
    requires { i < 64 }
    ensures { result ≡ get_or pairs.now i 0 }
{
    pairs[i]
}

// The least pair i < j in conflict without a settlement, if there is one. No number is at n or past it.
pub fn least(
    pairs: &[u64; 64],
    rows: &[u64],
    w: &[[u16; 64]],
    s: &[[u8; 64]],
    n: usize,
) -> Option<Pair>
    requires { LeastAsks n pairs.now rows.now w.now s.now }
    ensures { IsLeast (unsettled_by pairs.now rows.now w.now s.now n) result }
{
    let mut found = None;
    'search: for i in 0..rows::transitions(n) {
        for j in sets::members(later(pairs, i)) {
            if !settled(rows, w, s, n, i, j) {
                found = Some(Pair {
                    first: i,
                    second: j,
                });
                break 'search;
            }
        }
    }
    found
}
