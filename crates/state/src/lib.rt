// A state image: whether it fits a table (answer 10), read into arrays, written from them, and that of a fresh net.
#![tactic(auto)]

ghost use Rattle.std.specs.Prelude.{true, ◌≡◌, ◌+◌, ◌*◌, ◌≤◌, ◌<◌, length, get_or, set};
ghost use Rattle.meaning.specs.Answer.{accepted};
ghost use Rattle.meaning.specs.Below.{IsFirst};
ghost use Rattle.meaning.specs.Defined.{check};
ghost use Rattle.meaning.specs.Image.{image as spelled, image_bytes, fresh as fresh_net};
ghost use Rattle.meaning.specs.Table.{table};
ghost use Rattle.state.specs.Records.{Quiet, IsFirstFrom};
ghost use Rattle.state.specs.Holds.{held, LoadAsks, Loaded, SaveAsks};
ghost use Rattle.state.specs.Stored.{Stored, tokens_put};
ghost use Rattle.state.specs.Fit.{wrong_place_by, wrong_transition_by, wrong_by};

use records::Kind;
use rows::{Declared, LIMIT};

// The state of a net: the tokens of each place, the counter of each transition, and the transitions with a reset order.
#[derive(Drop)]
pub struct State {
    pub tokens: [u32; 128],
    pub counters: [u32; 64],
    pub orders: u64,
}

// READING

// The number with which record k begins.
#[tactic(auto, using(crate::proofs::Read::columns))]
fn number(image: &[u8], k: usize) -> u32
    requires image_len { length image.now ≡ 768 }
    requires k_bound { k < 192 }
    ensures value { result ≡ (spelled image.now).number k }
    ensures upper_bound { result ≤ 65535 }
{
    u32::from(numbers::two(image, 4 * k))
}

// Are the bytes from one place up to another all 0?
#[tactic(auto, using(crate::proofs::Read::quiet_more))]
fn quiet(bytes: &[u8], from: usize, to: usize) -> bool
    requires { (from ≤ to) × (to ≤ length bytes.now) }
    ensures { result ≡ true → Quiet bytes.now from to }
{
    let mut any = 0u8;
    for byte in &bytes[from..to] {
        any |= *byte;
    }
    any == 0
}

// DOES IT FIT

// Place p's record is wrong: a byte shown 0 is not 0, or a place that is not declared holds a token.
#[tactic(auto, using(crate::proofs::Read::columns), unfolding(crate::specs::Fit::wrong_place_by))]
fn wrong_place(image: &[u8], k: Declared, p: usize) -> bool
    requires image_len { length image.now ≡ 768 }
    requires p_bound { p < 128 }
    ensures { result ≡ wrong_place_by image.now k p }
{
    if image[4 * p + 2] != 0 || image[4 * p + 3] != 0 {
        return true;
    }
    number(image, p) != 0 && !k.has_place(p)
}

// Transition t's record is wrong: its counter is above its limit, its reset order is above 1 or it may have none, or
// the byte shown 0 is not 0.
#[tactic(auto, using(crate::proofs::Read::columns), unfolding(crate::specs::Fit::wrong_transition_by))]
fn wrong_transition(image: &[u8], times: &[u32; 192], t: usize) -> bool
    requires image_len { length image.now ≡ 768 }
    requires t_bound { t < 64 }
    ensures { result ≡ wrong_transition_by image.now times.now t }
{
    let limit = times[3 * t + LIMIT];
    if limit < number(image, 128 + t) || image[512 + 4 * t + 3] != 0 {
        return true;
    }
    let order = image[512 + 4 * t + 2];
    1 < order || (limit == 0 && order != 0)
}

// The first place from `from` on and below `to` whose record is wrong, if there is one.
fn first_place(image: &[u8], k: Declared, from: usize, to: usize) -> Option<usize>
    requires { (length image.now ≡ 768) × (from ≤ to) × (to ≤ 128) }
    ensures { IsFirstFrom (wrong_place_by image.now k) from to result }
{
    for p in from..to {
        if wrong_place(image, k, p) {
            return Some(p);
        }
    }
    None
}

// The first transition whose record is wrong, if there is one.
#[tactic(auto, using(meaning::proofs::Below::first_none))]
fn first_transition(image: &[u8], times: &[u32; 192]) -> Option<usize>
    requires { length image.now ≡ 768 }
    ensures { IsFirst 64 (wrong_transition_by image.now times.now) result }
{
    for t in 0..64 {
        if wrong_transition(image, times, t) {
            return Some(t);
        }
    }
    None
}

// The first place whose record is wrong, if there is one. The places from n on are looked at one by one only where some
// byte of theirs is not 0.
#[tactic(auto, using(crate::proofs::Firsts::of_places))]
fn first_wrong_place(image: &[u8], k: Declared, n: usize) -> Option<usize>
    requires { (length image.now ≡ 768) × (n ≤ 128) }
    ensures { IsFirst 128 (wrong_place_by image.now k) result }
{
    if let Some(p) = first_place(image, k, 0, n) {
        return Some(p);
    }
    if quiet(image, 4 * n, 512) {
        return None;
    }
    first_place(image, k, n, 128)
}

// The first record of the image that does not fit, if there is one. The transitions too are looked at one by one only
// where some byte of theirs is not 0.
#[tactic(auto, using(crate::proofs::Firsts::of_records))]
pub fn first_wrong(image: &[u8], k: Declared, times: &[u32; 192], n: usize) -> Option<usize>
    requires image_len { length image.now ≡ 768 }
    requires n_bound { n ≤ 128 }
    ensures { IsFirst 192 (wrong_by image.now k times.now) result }
{
    if let Some(p) = first_wrong_place(image, k, n) {
        return Some(p);
    }
    if quiet(image, 512, 768) {
        return None;
    }
    let t = first_transition(image, times)?;
    Some(128 + t)
}

// READ INTO ARRAYS

// The state that an image holds takes the place of the one that is lent: the tokens of each place, then the counter and
// the reset order of each transition. From place n and from transition n on the image is 0. Handed back in place of lent,
// its 776 bytes would be copied twice.
#[tactic(auto, using(crate::proofs::Read::listing), unfolding(meaning::specs::Image::state))]
pub fn load(image: &[u8], n: usize, state: &mut State)
    requires { LoadAsks image.now n }
    ensures { Loaded image.now state.new }
{
    state.tokens = [0; 128];
    state.counters = [0; 64];
    state.orders = 0;
    for p in 0..n {
        state.tokens[p] = number(image, p);
    }
    for t in 0..rows::transitions(n) {
        state.counters[t] = number(image, 128 + t);
        if image[512 + 4 * t + 2] == 1 {
            state.orders = sets::union(state.orders, sets::single(t));
        }
    }
}

// WRITTEN FROM ARRAYS

// Record k becomes the number x, with 0 behind it.
fn store(image: &mut [u8], k: usize, x: u32)
    requires { (length image.old ≡ 768) × (k < 192) × (x ≤ 65535) }
    ensures { Stored image.old k x image.new }
{
    numbers::put_two(image, 4 * k, x);
    image[4 * k + 2] = 0;
    image[4 * k + 3] = 0;
}

// The image of a state without reset orders. From place n and from transition n on image and state have nothing, and
// nothing is written.
fn save_numbers(image: &mut [u8], state: &State, n: usize)
    requires { SaveAsks image.old state.now n }
    ensures { image.new ≡ image_bytes (held state.now.tokens state.now.counters 0) }
{
    for p in 0..n {
        store(image, p, state.tokens[p]);
    }
    for t in 0..rows::transitions(n) {
        store(image, 128 + t, state.counters[t]);
    }
}

// A reset order of transition t: the third byte of its record becomes 1.
fn order(image: &mut [u8], t: usize)
    requires { (length image.old ≡ 768) × (t < 64) }
    ensures { image.new ≡ set image.old (512 + 4 * t + 2) 1 }
{
    image[512 + 4 * t + 2] = 1;
}

// The image of a state: tokens and counters, then the reset orders one by one, as there are few. From place n and from
// transition n on the image that is lent is 0, and the state has neither tokens nor counters there.
#[tactic(auto, using(crate::proofs::Orders::putting))]
pub fn save(image: &mut [u8], state: &State, n: usize)
    requires { SaveAsks image.old state.now n }
    ensures { image.new ≡ image_bytes (held state.now.tokens state.now.counters state.now.orders) }
{
    save_numbers(image, state, n);
    for t in sets::members(state.orders) {
        order(image, t);
    }
}

// A FRESH NET

// The first tokens of the place that record r declares.
fn put_tokens(t: &[u8], r: usize, image: &mut [u8])
    requires { (8 * r + 8 ≤ length t.now) × (get_or t.now (8 * r + 1) 0 < 128) × (length image.old ≡ 768) }
    ensures { image.new ≡ tokens_put (table t.now) r image.old }
{
    let place = usize::from(t[8 * r + 1]);
    let tokens = u32::from(numbers::two(t, 8 * r + 4));
    numbers::put_two(image, 4 * place, tokens);
}

// The image of a fresh net: first tokens, counters 0 and no reset orders.
pub fn fresh(t: &[u8], image: &mut [u8])
    requires { (length image.old ≡ 768) × (check t.now ≡ accepted 0) }
    ensures { image.new ≡ image_bytes (fresh_net (table t.now)) }
{
    image.fill(0);
    for r in 0..t.len() / 8 {
        if t[8 * r] == Kind::Place as u8 {
            put_tokens(t, r, image);
        }
    }
}
