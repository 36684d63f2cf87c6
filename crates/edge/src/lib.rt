// The two edges of a cycle: the counters after the falling edge, and the set of the transitions that are firable at
// the rising edge.
#![tactic(auto)]

ghost use Rattle.std.specs.Prelude.{true, ◌≡◌, ℕ, ◌<◌};
ghost use Rattle.meaning.specs.Bytes.{bit};
ghost use Rattle.edge.specs.Edges.{raised, in_span, as_asked, Raises, Ready, FirableAsks, Able};

use rows::{FIRST, LAST, LIMIT, LOOKS, Net, WANTED_TRUE};

// The counter of an enabled timed transition after the falling edge: with a reset order 1, else one more if below its
// limit.
#[tactic(auto, unfolding(crate::specs::Edges::raised))]
fn counted(again: bool, c: u32, limit: u32) -> u32
    ensures { result ≡ raised again limit c }
{
    if again {
        1
    } else {
        if c < limit { c + 1 } else { c }
    }
}

// Is a count in time: at least the first and at most the last?
fn in_time(c: u32, first: u32, last: u32) -> bool
    ensures { result ≡ in_span first last c }
{
    if first <= c { c <= last } else { false }
}

// The counters of the timed transitions go through the falling edge; those of the others stay. The answer is who is
// timed, enabled and in time.
#[tactic(auto, using(sets::proofs::Bits::bit_zero))]
pub fn fall(net: &Net<'_>, counters: &mut [u32; 64], on: u64, orders: u64) -> u64
    ensures raises { Raises net.now.timed orders on net.now.times.now counters.old counters.new }
    ensures ready { Ready net.now.timed on net.now.times.now counters.new result }
{
    let mut ready = 0u64;
    for t in sets::members(net.timed) {
        if sets::has(on, t) {
            let c = counted(sets::has(orders, t), counters[t], net.times[3 * t + LIMIT]);
            counters[t] = c;
            if in_time(c, net.times[3 * t + FIRST], net.times[3 * t + LAST]) {
                ready = sets::union(ready, sets::single(t));
            }
        } else {
            counters[t] = 0;
        }
    }
    ready
}

// Are the conditions that are looked at as wanted: those wanted true all in the word, the others out of it?
fn asked(looks: u64, wanted: u64, word: u64) -> bool
    requires { (k : ℕ) → k < 64 → bit wanted k ≡ true → bit looks k ≡ true }
    ensures { result ≡ as_asked looks wanted word }
{
    looks & word == wanted
}

// The firable: enabled and untimed, or ready, and the conditions as wanted, which are asked only where there are any.
#[tactic(auto, using(crate::proofs::Asking::sifting))]
pub fn firable(net: &Net<'_>, on: u64, ready: u64, word: u64) -> u64
    requires { FirableAsks net.now.conditional net.now.rows.now }
    ensures { Able on net.now.timed ready net.now.rows.now word result }
{
    let mut able = sets::union(sets::less(on, net.timed), ready);
    for t in sets::members(able & net.conditional) {
        if !asked(net.rows[8 * t + LOOKS], net.rows[8 * t + WANTED_TRUE], word) {
            able = sets::less(able, sets::single(t));
        }
    }
    able
}
