// Whom the records name: a place or a transition that is not declared (answer 5), and one that is declared without an
// arc (answer 7).
#![tactic(auto)]

ghost use Rattle.std.specs.Prelude.{not, ◌&&◌, ◌||◌, ◌≡◌, ℕ, ◌*◌, ◌≤◌, ◌<◌, eqb, length};
ghost use Rattle.meaning.specs.Below.{some, IsFirst};
ghost use Rattle.meaning.specs.Bytes.{bit};
ghost use Rattle.meaning.specs.Table.{table};
ghost use Rattle.rows.specs.Rows.{has};
ghost use Rattle.named.specs.Named.{Places, unknown_in, unknown_by, unknown_at, QuietFrom, isolated_in};

use records::{Kind, Rec};
use rows::{ACTIONS, BELOW, Declared, FUNCTIONS, INPUTS, LOOKS, POSTS};

// Is place p named by something, and not declared?
#[tactic(auto, using(rows::proofs::Empty::has_none, rows::proofs::Empty::has_some))]
fn lost(by: u64, k: Declared, p: usize) -> bool
    ensures { result ≡ (some 64 (bit by) && not (has k p)) }
{
    by != 0 && !k.has_place(p)
}

// Is place p declared, without an arc?
#[tactic(auto, using(rows::proofs::Empty::has_none, rows::proofs::Empty::has_some))]
fn bare(arcs: u64, k: Declared, p: usize) -> bool
    ensures { result ≡ (has k p && not (some 64 (bit arcs))) }
{
    arcs == 0 && k.has_place(p)
}

// The named, with t if it names something of its own.
#[tactic(auto, using(rows::proofs::Empty::has_none, rows::proofs::Empty::has_some))]
fn with_namer(named: u64, own: u64, t: usize) -> u64
    requires { t < 64 }
    ensures { (j : ℕ) → bit result j ≡ (bit named j || (eqb t j && some 64 (bit own))) }
{
    if own == 0 {
        return named;
    }
    sets::union(named, sets::single(t))
}

// The transitions of all arcs of the first n places, or nothing if one of these places is named and not declared.
fn walk(rows: &[u64], k: Declared, n: usize) -> Option<u64>
    requires { 8 * n ≤ length rows.now }
    ensures { Places rows.now k n result }
{
    let mut arced: u64 = 0;
    for p in 0..n {
        let arcs = sets::union(rows[8 * p + INPUTS], rows[8 * p + POSTS]);
        if lost(sets::union(arcs, rows[8 * p + ACTIONS]), k, p) {
            return None;
        }
        arced = sets::union(arced, arcs);
    }
    Some(arced)
}

// Is a place or a transition named that is not declared? No number is at n or past it.
#[tactic(auto, unfolding(crate::specs::Named::unknown_in))]
pub fn any_unknown(rows: &[u64], k: Declared, n: usize) -> bool
    requires { 8 * n ≤ length rows.now }
    ensures { result ≡ unknown_in rows.now k n }
{
    let Some(mut named) = walk(rows, k, n) else {
        return true;
    };
    for t in 0..rows::transitions(n) {
        let below = rows[8 * t + BELOW];
        let own = sets::union(
            sets::union(below, rows[8 * t + LOOKS]),
            rows[8 * t + FUNCTIONS],
        );
        named = sets::union(with_namer(named, own, t), below);
    }
    sets::less(named, k.transitions) != 0
}

// Does the record name a place or a transition that is not declared?
#[tactic(auto, unfolding(crate::specs::Named::unknown_by))]
fn names_unknown(x: Rec, k: Declared) -> bool
    ensures { result ≡ unknown_by k x.kind x.one x.two }
{
    let one = usize::from(x.one);
    let two = usize::from(x.two);
    match Kind::try_from(x.kind) {
        Ok(Kind::Arc) => !k.has_place(one) || !sets::has(k.transitions, two),
        Ok(Kind::Condition | Kind::Function) => !sets::has(k.transitions, one),
        Ok(Kind::Priority) => !sets::has(k.transitions, one) || !sets::has(k.transitions, two),
        Ok(Kind::Action) => !k.has_place(one),
        Ok(Kind::Place | Kind::Transition) => false,
        Err(_) => false,
    }
}

// The first record that names one, if there is one.
#[tactic(auto, using(meaning::proofs::Below::first_none), unfolding(meaning::specs::Table::table))]
pub fn first_unknown(t: &[u8], k: Declared) -> Option<usize>
    ensures { IsFirst (table t.now).records (unknown_at (table t.now) k) result }
{
    for r in 0..t.len() / 8 {
        if names_unknown(records::read(t, r), k) {
            return Some(r);
        }
    }
    None
}

// The first declared place with no arc, else 128 and the first declared transition with no arc, if there is one. From n
// on there is neither an arc nor a place.
pub fn first_isolated(rows: &[u64], k: Declared, n: usize) -> Option<usize>
    requires { QuietFrom n rows.now k × (8 * n ≤ length rows.now) }
    ensures { IsFirst 192 (isolated_in rows.now k) result }
{
    let mut arced: u64 = 0;
    for p in 0..n {
        let arcs = sets::union(rows[8 * p + INPUTS], rows[8 * p + POSTS]);
        if bare(arcs, k, p) {
            return Some(p);
        }
        arced = sets::union(arced, arcs);
    }
    let alone = sets::lowest(sets::less(k.transitions, arced))?;
    Some(128 + alone)
}
