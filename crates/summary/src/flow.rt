// What the arcs of a table move when each transition fires as often as a summary says.
ghost use Rattle.std.specs.Prelude.{◌≡◌, ℕ, ◌*◌, ◌≤◌, ◌<◌, pos, ◌-ℤ◌, length, get_or};
ghost use Rattle.meaning.specs.Table.{table};
ghost use Rattle.summary.specs.Day.{listed};
ghost use Rattle.summary.specs.Parts.{LowArcs, MovesSo, Shifts, Shifted};

use records::{Kind, Rec};
use std::array;

// So many times a weight.
fn product(weight: u16, times: u32) -> u64
    ensures { (result ≡ weight * times) × (result ≤ 281470681677825) }
{
    u64::from(weight) * u64::from(times)
}

// Adds what one record moves, if it is an arc of the sort.
fn shift(x: Rec, sort: u8, s: &[u32; 65], moved: &mut [u64; 128])
    requires { Shifts x moved.old }
    ensures { Shifted x sort s.now moved.old moved.new }
{
    if x.kind == Kind::Arc as u8 && x.sort == sort {
        moved[usize::from(x.one)] += product(x.four, s[usize::from(x.two) + 1]);
    }
}

// What the arcs of a sort move at each place when each transition fires as often as the summary says.
pub fn moves(t: &[u8], sort: u8, s: &[u32; 65]) -> [u64; 128]
    requires low_arcs { LowArcs (table t.now) }
    requires t_len_bound { length t.now ≤ 8192 }
    ensures { MovesSo (table t.now) sort s.now result }
{
    let mut moved = [0u64; 128];
    for r in 0..t.len() / 8 {
        shift(records::read(t, r), sort, s, &mut moved);
    }
    moved
}

// One number less another, with its sign. Both fit, so that the casts lose nothing; i64::try_from would ask again.
fn less(put: u64, taken: u64) -> i64
    requires { (put ≤ 288225978038092800) × (taken ≤ 288225978038092800) }
    ensures { result ≡ pos put -ℤ pos taken }
{
    put as i64 - taken as i64
}

// At each place what is put less what is taken.
pub fn differences(put: &[u64; 128], taken: &[u64; 128]) -> [i64; 128]
    requires { (p : ℕ) → p < 128 → (get_or put.now p 0 ≤ 288225978038092800)
        × (get_or taken.now p 0 ≤ 288225978038092800) }
    ensures { result ≡ listed 128 (λ p. pos (get_or put.now p 0) -ℤ pos (get_or taken.now p 0)) }
{
    array::from_fn(|p| less(put[p], taken[p]))
}
