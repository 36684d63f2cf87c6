// Sets of the numbers 0 to 63, one bit each. Each function says which numbers its answer has.
#![tactic(auto)]

ghost use Rattle.std.specs.Prelude.{◌≡◌, ◌&&◌, ◌||◌, not, ℕ, ◌<◌, eqb};
ghost use Rattle.meaning.specs.Below.{some, first, IsFirst};
ghost use Rattle.meaning.specs.Bytes.{bit};
ghost use Rattle.std.specs.Iterator.{at_most};
ghost use Rattle.sets.specs.Walk.{Turn};

// Is k in s?
pub fn has(s: u64, k: usize) -> bool
    ensures { result ≡ bit s k }
{
    if k < 64 { (s >> k) % 2 == 1 } else { false }
}

// k alone.
pub fn single(k: usize) -> u64
    requires { k < 64 }
    ensures { (j : ℕ) → bit result j ≡ eqb k j }
{
    1 << k
}

// All that is in s or in t.
pub fn union(s: u64, t: u64) -> u64
    ensures { (j : ℕ) → bit result j ≡ (bit s j || bit t j) }
{
    s | t
}

// Is anything in both?
pub fn meet(s: u64, t: u64) -> bool
    ensures { result ≡ some 64 (λ k. bit s k && bit t k) }
{
    s & t != 0
}

// s less all that is in t.
pub fn less(s: u64, t: u64) -> u64
    ensures { (j : ℕ) → bit result j ≡ (bit s j && not (bit t j)) }
{
    s - (s & t)
}

// The lowest number in s, if there is one. The cast makes it wider; there is no usize::from for four bytes.
pub fn lowest(s: u64) -> Option<usize>
    ensures { IsFirst 64 (bit s) result }
{
    if s == 0 {
        return None;
    }
    Some(u64::trailing_zeros(s) as usize)
}

// s less its lowest number.
pub fn rest(s: u64) -> u64
    ensures { (j : ℕ) → bit result j ≡ (bit s j && not (eqb (first 64 (bit s)) j)) }
{
    if s == 0 { 0 } else { s & (s - 1) }
}

// The members of a set that a walk has not come to, the lowest first.
#[derive(Drop)]
pub struct Each {
    pub left: u64,
}

impl Iterator for Each {
    type Item = usize;

    ghost next_gives = { λ s r t. Turn s.left r t.left };

    ghost remaining = { λ s. at_most s.left };

    fn next(&mut self) -> Option<usize> {
        let k = lowest(self.left)?;
        self.left = rest(self.left);
        Some(k)
    }
}

// The members of s, the lowest first.
pub fn members(s: u64) -> Each
    ensures { result.left ≡ s }
{
    Each { left: s }
}
