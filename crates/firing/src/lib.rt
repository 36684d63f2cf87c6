// The fired set (definition 6): firable transitions are decided once all their rivals are, each against what the
// fired ones among them leave.
#![tactic(auto)]

ghost use Rattle.std.specs.Prelude.{cond, ◌≡◌, ◌-◌, ◌≤◌, ◌<◌, get_or};
ghost use Rattle.meaning.specs.Below.{sum};
ghost use Rattle.meaning.specs.Bytes.{bit};
ghost use Rattle.rows.specs.Rows.{stops};
ghost use Rattle.arcs.specs.Arcs.{low, high};
ghost use Rattle.firing.specs.Fired.{stopped_among, left_enabled, There, Housed, Ranks, Decided, Fires};

use arcs::{HIGH, LOW, RIVALS};
use rows::{Net, TAKERS};

// What is undecided and what has fired, before a round or after it.
#[derive(Clone, Copy)]
struct Round {
    left: u64,
    out: u64,
}

// The weights in a place's row of the members of a set, added up.
#[tactic(auto, using(crate::proofs::Sums::over_none, crate::proofs::Sums::count_low))]
fn at_place(set: u64, row: &[u16; 64]) -> u32
    ensures { (result ≡ sum 64 (λ t. cond (bit set t) (get_or row.now t 0) 0)) × (result ≤ 4194240) }
{
    let mut taken = 0u32;
    for t in sets::members(set) {
        taken += u32::from(row[t]);
    }
    taken
}

// Does an arc of this weight and sort stop its transition, with so many tokens on its place?
fn stops(tokens: u32, weight: u16, sort: u8) -> bool
    ensures { result ≡ stops weight sort tokens }
{
    let wanted = u32::from(weight);
    if sort == 2 {
        wanted <= tokens
    } else {
        tokens < wanted
    }
}

// Does some arc from a place of the word stop t, where members of g take and with what they leave there? The word has
// 64 places, from the first on.
#[tactic(auto, using(crate::proofs::Words::nothing))]
fn stopped_in(net: &Net<'_>, tokens: &[u32; 128], word: u64, from: usize, g: u64, t: usize) -> bool
    requires { (from ≤ 64) × (t < 64) × There word from net.now.rows.now net.now.weights.now net.now.sorts.now }
    ensures { result ≡ stopped_among tokens.now net.now.rows.now net.now.weights.now net.now.sorts.now word from g t }
{
    for k in sets::members(word) {
        let p = from + k;
        let takers = g & net.rows[8 * p + TAKERS];
        if takers != 0 {
            let taken = at_place(takers, &net.weights[p]);
            if stops(
                tokens[p].saturating_sub(taken),
                net.weights[p][t],
                net.sorts[p][t],
            ) {
                return true;
            }
        }
    }
    false
}

// Does transition t stay enabled by what the set g of its rivals leaves?
#[tactic(auto, using(crate::proofs::Rounds::spared), unfolding(crate::specs::Fired::left_enabled))]
fn fires(net: &Net<'_>, tokens: &[u32; 128], g: u64, t: usize) -> bool
    requires { (t < 64) × Housed net.now.rows.now net.now.arcs.now net.now.weights.now net.now.sorts.now }
    ensures { result ≡ left_enabled tokens.now net.now.rows.now net.now.weights.now net.now.sorts.now
        (low net.now.arcs.now t) (high net.now.arcs.now t) g t }
{
    if g == 0 {
        return true;
    }
    if stopped_in(net, tokens, net.arcs[5 * t + LOW], 0, g, t) {
        return false;
    }
    !stopped_in(net, tokens, net.arcs[5 * t + HIGH], 64, g, t)
}

// One round: of those left, whoever has none of them for a rival is decided, against the fired ones among its rivals.
#[tactic(auto, using(crate::proofs::Rounds::all_passed, sets::proofs::Bits::bit_zero))]
fn one_round(net: &Net<'_>, round: Round, tokens: &[u32; 128]) -> Round
    requires { Housed net.now.rows.now net.now.arcs.now net.now.weights.now net.now.sorts.now }
    ensures { Decided round.left round.out tokens.now net.now.rows.now net.now.arcs.now net.now.weights.now
        net.now.sorts.now result }
{
    let mut after = Round { left: 0, ..round };
    for t in sets::members(round.left) {
        let above = net.arcs[5 * t + RIVALS];
        if sets::meet(above, round.left) {
            after.left = sets::union(after.left, sets::single(t));
        } else if fires(net, tokens, round.out & above, t) {
            after.out = sets::union(after.out, sets::single(t));
        }
    }
    after
}

// The fired set. Whoever has no rivals fires at once, if firable; the net's `lower` has the others, and they are
// decided in rounds, at least one of those left in each.
#[tactic(auto, using(crate::proofs::Rounds::at_end))]
pub fn fired(net: &Net<'_>, able: u64, tokens: &[u32; 128]) -> u64
    requires { Housed net.now.rows.now net.now.arcs.now net.now.weights.now net.now.sorts.now
        × Ranks net.now.arcs.now net.now.lower }
    ensures { Fires able tokens.now net.now.rows.now net.now.arcs.now net.now.weights.now
        net.now.sorts.now result }
{
    let mut round = Round {
        left: able & net.lower,
        out: sets::less(able, net.lower),
    };
    // As many rounds as are needed: nothing is counted.
    while round.left != 0 {
        round = one_round(net, round, tokens);
    }
    round.out
}
