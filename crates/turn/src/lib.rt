// One cycle over the rows of an accepted table: the falling edge, then the rising edge.
#![tactic(auto)]

ghost use Rattle.turn.specs.Turn.{StepAsks, Steps};

use levels::Kept;
use marking::Moves;
use rows::Net;
use state::State;

// What a cycle comes to: the three sets of its record, and the lowest full place, if there is one.
#[derive(Clone, Copy)]
pub struct Outcome {
    pub fired: u64,
    pub actions: u64,
    pub functions: u64,
    pub full: Option<usize>,
}

// One cycle from a state with a word. The state becomes that after the cycle, and what is kept of each place goes on to
// the next; nothing is taken or put before the cycle, nor after it.
pub fn step(
    net: &Net<'_>,
    state: &mut State,
    kept: &mut Kept,
    moves: &mut Moves,
    word: u64,
) -> Outcome
    requires { StepAsks net.now state.old kept.old moves.old }
    ensures { Steps net.now state.old word result state.new kept.new moves.new }
{
    let n = 8 * net.eights;
    // The falling edge.
    let seen = levels::gather(kept, n);
    let on = sets::less(net.known, seen.held);
    let ready = edge::fall(net, &mut state.counters, on, state.orders);
    // The rising edge.
    let able = edge::firable(net, on, ready, word);
    let fired = firing::fired(net, able, &state.tokens);
    let moved = marking::tally(net, fired, kept, moves);
    let settled = marking::settle(net, moved.lack, &mut state.tokens, kept, moves, n);
    state.orders = net.timed & sets::union(fired, settled.starved);
    Outcome {
        fired,
        actions: seen.actions,
        functions: moved.functions,
        full: settled.full,
    }
}
