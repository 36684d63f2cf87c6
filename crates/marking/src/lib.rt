// What firing does to the marking: what the fired transitions take and put at each place, and the marking after it,
// with what is kept of each place made anew where the place left its level.
#![tactic(auto)]

ghost use Rattle.std.specs.Prelude.{cond, ◌||◌, ◌≡◌, ℕ, ◌*◌, ◌≤◌, ◌<◌, ltb, get_or};
ghost use Rattle.meaning.specs.Below.{IsFirst};
ghost use Rattle.marking.specs.Moves.{TakeAsks, Took, GiveAsks, Gave, TallyAsks, Tallied};
ghost use Rattle.marking.specs.Settle.{SettleAsks, Settles};
ghost use Rattle.marking.specs.Sweep.{LowFour, SweepAsks, Swept, TendAsks, Tended, Cleared};

use arcs::TAKES;
use levels::Kept;
use rows::{FUNCTIONS, INPUTS, NEXT, Net, PLACE, WEIGHT};

// What is taken and what is put at each place.
#[derive(Drop)]
pub struct Moves {
    pub taken: [u32; 128],
    pub put: [u32; 128],
}

// Adds at each place of the word what transition u takes there; the word has 64 places, from `from` on. The answer is
// who lacks tokens at these places.
#[tactic(auto, using(crate::proofs::Taking::taking))]
fn take(net: &Net<'_>, word: u64, from: usize, u: usize, kept: &Kept, taken: &mut [u32; 128]) -> u64
    requires { TakeAsks word from u taken.old net.now.weights.now }
    ensures { Took word from u net.now.weights.now kept.now taken.old taken.new result }
{
    let mut lack = 0u64;
    for k in sets::members(word) {
        let p = from + k;
        taken[p] += u32::from(net.weights[p][u]);
        lack = sets::union(lack, kept.lacks[p]);
    }
    lack
}

// Adds at each place what the chain of post arcs from `first` on puts there. A link is one more than the number of its
// arc, or 0 at the end.
#[tactic(auto, using(crate::proofs::Chain::given_none))]
fn give(first: u16, put: &mut [u32; 128], posts: &[u16])
    requires { GiveAsks first put.old posts.now }
    ensures { Gave first posts.now put.old put.new }
{
    let mut link = usize::from(first);
    while let Some(k) = link.checked_sub(1) {
        let p = usize::from(posts[3 * k + PLACE]);
        put[p] += u32::from(posts[3 * k + WEIGHT]);
        link = usize::from(posts[3 * k + NEXT]);
    }
}

// The functions of those that fire, and who lacked tokens at the places from which they take.
#[derive(Clone, Copy)]
pub struct Moved {
    pub functions: u64,
    pub lack: u64,
}

// What the members of `fired` take and put at each place, where nothing is taken or put yet; the answer is their
// functions, and who lacked tokens at the places from which they take.
#[tactic(auto, using(crate::proofs::Tallying::begins, crate::proofs::Tallying::ends))]
pub fn tally(net: &Net<'_>, fired: u64, kept: &Kept, moves: &mut Moves) -> Moved
    requires { TallyAsks fired moves.old.taken moves.old.put net.now.rows.now
        net.now.arcs.now net.now.weights.now net.now.heads.now net.now.posts.now }
    ensures { Tallied fired net.now.rows.now net.now.weights.now net.now.heads.now net.now.posts.now
        kept.now moves.new.taken moves.new.put result }
{
    let mut functions = 0u64;
    let mut lack = 0u64;
    for u in sets::members(fired) {
        functions = sets::union(functions, net.rows[8 * u + FUNCTIONS]);
        lack = sets::union(
            lack,
            take(net, net.arcs[5 * u + TAKES], 0, u, kept, &mut moves.taken),
        );
        lack = sets::union(
            lack,
            take(
                net,
                net.arcs[5 * u + TAKES + 1],
                64,
                u,
                kept,
                &mut moves.taken,
            ),
        );
        give(net.heads[u], &mut moves.put, net.posts);
    }
    Moved { functions, lack }
}

// Is x below y? Both are below 2^31; as numbers with a sign the compiler compares those of four places at once.
fn below(x: u32, y: u32) -> bool
    requires { (x < 2147483648) × (y < 2147483648) }
    ensures { result ≡ ltb x y }
{
    (x as i32) < (y as i32)
}

// 1 if a place leaves its level, by what the taking leaves there or by what it has in the end, else 0.
fn left_it(rest: u32, new: u32, from: u32, upto: u32) -> u32
    requires { LowFour rest new from upto }
    ensures { result ≡ cond (ltb rest from || ltb upto new) 1 0 }
{
    if below(rest, from) {
        return 1;
    }
    if below(upto, new) { 1 } else { 0 }
}

// All bits of the one and of the other: at least each of them.
#[tactic(auto, using(std::proofs::lemmas::Nat::le_or_l, std::proofs::lemmas::Nat::le_or_r))]
fn together(x: u32, y: u32) -> u32
    ensures { (x ≤ result) × (y ≤ result) }
{
    x | y
}

// The new tokens of the first n places in one sweep, each marked where it left its level: by what the taking leaves
// there or by what it has in the end. The answer is at least each of the new tokens.
fn sweep(tokens: &mut [u32; 128], moves: &Moves, kept: &mut Kept, n: usize) -> u32
    requires { SweepAsks n tokens.old moves.now.taken moves.now.put kept.old }
    ensures { Swept n tokens.old moves.now.taken moves.now.put kept.old
        tokens.new kept.new result }
{
    let mut all: u32 = 0;
    for p in 0..n {
        let rest = tokens[p] - moves.taken[p];
        let new = rest + moves.put[p];
        kept.left[p] = left_it(rest, new, kept.from[p], kept.upto[p]);
        all = together(all, new);
        tokens[p] = new;
    }
    all
}

// The first of the first n places that has more than 65,535 tokens, if there is one.
fn first_full(tokens: &[u32; 128], n: usize) -> Option<usize>
    requires { (n ≤ 128) × ((p : ℕ) → n ≤ p → p < 128 → get_or tokens.now p 0 ≤ 65535) }
    ensures { IsFirst 128 (λ p. ltb 65535 (get_or tokens.now p 0)) result }
{
    tokens[..n].iter().position(|x| 65535 < *x)
}

// Is the number outside of a level?
fn outside(x: u32, from: u32, upto: u32) -> bool
    ensures { result ≡ (ltb x from || ltb upto x) }
{
    x < from || upto < x
}

// The places that left their level: whom the rest of each starves where it came below the level, and what is kept of it
// made anew for its new tokens.
#[tactic(auto, using(sets::proofs::Bits::bit_zero), unfolding(meaning::specs::Below::some))]
fn tend(net: &Net<'_>, tokens: &[u32; 128], put: &[u32; 128], kept: &mut Kept, n: usize) -> u64
    requires { TendAsks n tokens.now put.now kept.old
        net.now.rows.now net.now.weights.now net.now.sorts.now }
    ensures { Tended n net.now.rows.now net.now.weights.now net.now.sorts.now
        tokens.now put.now kept.old kept.new result }
{
    let mut starved = 0u64;
    for p in 0..n {
        if kept.left[p] != 0 {
            let new = tokens[p];
            let rest = new - put[p];
            let from = kept.from[p];
            if rest < from {
                starved = sets::union(
                    starved,
                    levels::lacking(
                        rest,
                        net.rows[8 * p + INPUTS],
                        &net.weights[p],
                        &net.sorts[p],
                    ),
                );
            }
            if outside(new, from, kept.upto[p]) {
                levels::relevel(net, p, new, kept);
            }
        }
    }
    starved
}

// Nothing is taken or put any more at the first n places.
fn clear(moves: &mut Moves, n: usize)
    requires { n ≤ 128 }
    ensures { Cleared n moves.old.taken moves.old.put moves.new.taken moves.new.put }
{
    // One loop over both: two calls of fill take more instructions on all but the largest nets.
    for p in 0..n {
        moves.taken[p] = 0;
        moves.put[p] = 0;
    }
}

// The lowest full place, if there is one, and whom the places starve.
#[derive(Clone, Copy)]
pub struct Settled {
    pub full: Option<usize>,
    pub starved: u64,
}

// The marking after the step: each of the first n places loses what is taken and gains what is put. Answers the lowest
// full place, if there is one, and whom the places starve; `lack` has who lacked tokens at the places from which
// something is taken. What is kept of each place then holds for its new tokens; nothing is taken or put any more.
pub fn settle(
    net: &Net<'_>,
    lack: u64,
    tokens: &mut [u32; 128],
    kept: &mut Kept,
    moves: &mut Moves,
    n: usize,
) -> Settled
    requires { SettleAsks n lack net.now.rows.now net.now.weights.now net.now.sorts.now
        tokens.old kept.old moves.old.taken moves.old.put }
    ensures { Settles net.now.rows.now net.now.weights.now net.now.sorts.now
        tokens.old moves.old.taken moves.old.put
        tokens.new kept.new moves.new.taken moves.new.put result }
{
    let full = if 65535 < sweep(tokens, moves, kept, n) {
        first_full(tokens, n)
    } else {
        None
    };
    let starved = sets::union(lack, tend(net, tokens, &moves.put, kept, n));
    clear(moves, n);
    Settled { full, starved }
}
