// Enabled by a marking: whom the tokens of each place hold back, which actions they activate and who lacks tokens
// there, kept place by place. What is kept holds for every number of tokens on a level, and is made anew only when a
// place leaves its level.
#![tactic(auto)]

ghost use Rattle.std.specs.Prelude.{◌&&◌, ◌≡◌, ℕ, ◌+◌, ◌*◌, ◌≤◌, ◌<◌, get_or};
ghost use Rattle.meaning.specs.Below.{some};
ghost use Rattle.meaning.specs.Bytes.{bit};
ghost use Rattle.levels.specs.Levels.{lacks_of, Narrowed, LevelOf, RelevelAsks, Relevelled};

use rows::{ACTIONS, INPUTS, Net};

// What is kept of each place: whom it holds back, its active actions, who lacks tokens there; its level, from one
// number to another; and whether it left the level.
#[derive(Drop)]
pub struct Kept {
    pub held: [u64; 128],
    pub active: [u64; 128],
    pub lacks: [u64; 128],
    pub from: [u32; 128],
    pub upto: [u32; 128],
    pub left: [u32; 128],
}

// Of those with these arcs from a place, who has a basic or test arc whose weight so many tokens do not reach.
#[tactic(auto, using(sets::proofs::Bits::bit_zero))]
pub fn lacking(tokens: u32, arcs: u64, w: &[u16; 64], s: &[u8; 64]) -> u64
    ensures { (t : ℕ) → bit result t ≡ (bit arcs t && lacks_of w.now s.now tokens t) }
{
    let mut lacks = 0u64;
    for t in sets::members(arcs) {
        if s[t] != 2 && tokens < u32::from(w[t]) {
            lacks = sets::union(lacks, sets::single(t));
        }
    }
    lacks
}

// A level of a place's tokens, from one number to another, both included: with any number on it the place holds the
// same back, and the same lack tokens.
#[derive(Clone, Copy)]
pub struct Level {
    pub held: u64,
    pub lacks: u64,
    pub from: u32,
    pub upto: u32,
}

// The level with one more arc, to transition t: it begins at the arc's weight or ends just below it, if that is nearer.
fn narrowed(x: Level, tokens: u32, t: usize, weight: u16, sort: u8) -> Level
    requires { t < 64 }
    ensures { Narrowed tokens t weight sort x result }
{
    let wanted = u32::from(weight);
    if tokens < wanted {
        let upto = x.upto.min(wanted - 1);
        if sort == 2 {
            return Level { upto, ..x };
        }
        let alone = sets::single(t);
        return Level {
            held: sets::union(x.held, alone),
            lacks: sets::union(x.lacks, alone),
            upto,
            ..x
        };
    }
    let from = x.from.max(wanted);
    if sort == 2 {
        return Level {
            held: sets::union(x.held, sets::single(t)),
            from,
            ..x
        };
    }
    Level { from, ..x }
}

// The level of so many tokens at a place with these arcs. A place without a token is a level of its own.
#[tactic(auto, using(sets::proofs::Bits::bit_zero))]
pub fn level_of(tokens: u32, arcs: u64, w: &[u16; 64], s: &[u8; 64]) -> Level
    requires { tokens < 2147483647 }
    ensures { LevelOf tokens arcs w.now s.now result }
{
    let (from, upto) = if tokens == 0 { (0, 0) } else { (1, 2147483647) };
    let mut x = Level {
        held: 0,
        lacks: 0,
        from,
        upto,
    };
    for t in sets::members(arcs) {
        x = narrowed(x, tokens, t, w[t], s[t]);
    }
    x
}

// What is kept of place p is made anew for so many tokens.
pub fn relevel(net: &Net<'_>, p: usize, tokens: u32, kept: &mut Kept)
    requires { RelevelAsks p tokens net.now.rows.now net.now.weights.now net.now.sorts.now }
    ensures { Relevelled p tokens net.now.rows.now net.now.weights.now net.now.sorts.now kept.old kept.new }
{
    let x = level_of(
        tokens,
        net.rows[8 * p + INPUTS],
        &net.weights[p],
        &net.sorts[p],
    );
    kept.held[p] = x.held;
    kept.active[p] = if tokens == 0 {
        0
    } else {
        net.rows[8 * p + ACTIONS]
    };
    kept.lacks[p] = x.lacks;
    kept.from[p] = x.from;
    kept.upto[p] = x.upto;
}

// What all places together do: whom they hold back, and which actions they activate.
#[derive(Clone, Copy)]
pub struct Seen {
    pub held: u64,
    pub actions: u64,
}

// The same, of the first n places, by what is kept of them.
#[tactic(auto, using(sets::proofs::Bits::bit_zero), unfolding(meaning::specs::Below::some))]
pub fn gather(kept: &Kept, n: usize) -> Seen
    requires { n ≤ 128 }
    ensures held { (t : ℕ) → bit result.held t ≡ some n (λ p. bit (get_or kept.now.held p 0) t) }
    ensures shown { (k : ℕ) → bit result.actions k ≡ some n (λ p. bit (get_or kept.now.active p 0) k) }
{
    let mut held = 0u64;
    let mut actions = 0u64;
    for p in 0..n {
        held = sets::union(held, kept.held[p]);
        actions = sets::union(actions, kept.active[p]);
    }
    Seen { held, actions }
}
