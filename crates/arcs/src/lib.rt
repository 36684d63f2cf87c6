// The rows turned: of each transition the places of its input arcs and of its basic arcs, and its rivals, who alone
// can take what it asks for.
#![tactic(auto)]

ghost use Rattle.std.specs.Prelude.{◌||◌, ◌≡◌, ◌<◌, length, replicate};
ghost use Rattle.arcs.specs.Arcs.{Put, ArclessFrom, Turned, shared, meeting, LowPairs, Rivals};

use rows::{BELOW, INPUTS, TAKERS};

// Five sets for each transition, at 5 * t: the places of its input arcs, 0 to 63 and the others; those of its basic
// arcs, likewise; and its rivals.
pub const LOW: usize = 0;

pub const HIGH: usize = 1;

pub const TAKES: usize = 2;

pub const RIVALS: usize = 4;

// Set k of each member of `to` gets all of `what`.
fn put(arcs: &mut [u64; 320], to: u64, k: usize, what: u64)
    requires { (k < 5) × (length arcs.old ≡ 320) }
    ensures { Put arcs.old to k what arcs.new }
{
    for t in sets::members(to) {
        let at = 5 * t + k;
        arcs[at] = sets::union(arcs[at], what);
    }
}

// Turns the rows of the first n places; places from n on have no input arcs. The sets are lent empty.
pub fn turn(rows: &[u64], arcs: &mut [u64; 320], n: usize)
    requires arcless { ArclessFrom n rows.now }
    requires empty { arcs.old ≡ replicate 320 0 }
    ensures { Turned rows.now arcs.new }
{
    for p in 0..n {
        let here = sets::single(p % 64);
        let half = p / 64;
        put(arcs, rows[8 * p + INPUTS], LOW + half, here);
        put(arcs, rows[8 * p + TAKERS], TAKES + half, here);
    }
}

// Has a something in common with b, or c with d?
fn common(a: u64, b: u64, c: u64, d: u64) -> bool
    ensures { result ≡ (shared a b || shared c d) }
{
    (a & b) | (c & d) != 0
}

// Does u take from a place from which t has an input arc?
#[tactic(auto, unfolding(crate::specs::Arcs::meeting))]
fn meets(arcs: &[u64; 320], t: usize, u: usize) -> bool
    requires { (t < 64) × (u < 64) }
    ensures { result ≡ meeting arcs.now t u }
{
    common(
        arcs[5 * t + LOW],
        arcs[5 * u + TAKES],
        arcs[5 * t + HIGH],
        arcs[5 * u + TAKES + 1],
    )
}

// Gives each transition its rivals: who stands above it and takes from a place of its input arcs. The answer is who
// has rivals. No transition from n on stands above another.
pub fn rivals(rows: &[u64], arcs: &mut [u64; 320], n: usize) -> u64
    requires { Turned rows.now arcs.old × LowPairs n rows.now }
    ensures { Rivals rows.now arcs.new result }
{
    let mut lower = 0u64;
    for u in 0..n {
        for t in sets::members(rows[8 * u + BELOW]) {
            if meets(arcs, t, u) {
                let at = 5 * t + RIVALS;
                arcs[at] = sets::union(arcs[at], sets::single(u));
                lower = sets::union(lower, sets::single(t));
            }
        }
    }
    lower
}
