// The priorities closed within the rows: each transition gets all who stand below it, by a chain of written pairs.
#![tactic(auto)]

ghost use Rattle.meaning.specs.Below.{IsFirst};
ghost use Rattle.meaning.specs.Bytes.{bit};
ghost use Rattle.rows.specs.Rows.{below};
ghost use Rattle.closure.specs.Closure.{ReachAsks, Reached, LowPairs, Closes};

use rows::BELOW;

// Whom a chain of pairs leads to from t: the members of its row, those of their rows, and so on. Each is looked at
// once.
fn reached(rows: &[u64], t: usize) -> u64
    requires { ReachAsks t rows.now }
    ensures { Reached rows.now t result }
{
    let mut all = rows[8 * t + BELOW];
    let mut left = all;
    // The members left grow on the way, so that no walk over a set stands here.
    while let Some(k) = sets::lowest(left) {
        let more = sets::less(rows[8 * k + BELOW], all);
        all = sets::union(all, more);
        left = sets::union(sets::rest(left), more);
    }
    all
}

// The written pairs closed: each transition gets all to whom a chain of them leads. From m on none stands above or
// below another.
pub fn close(rows: &mut [u64], m: usize)
    requires { LowPairs m rows.old }
    ensures { Closes rows.old rows.new }
{
    for t in 0..m {
        rows[8 * t + BELOW] = reached(rows, t);
    }
}

// The first transition that stands above itself, if one does. From m on none stands above or below another.
pub fn circle(rows: &[u64], m: usize) -> Option<usize>
    requires { LowPairs m rows.now }
    ensures { IsFirst 64 (λ t. bit (below rows.now t) t) result }
{
    (0..m).find(|&t| sets::has(rows[8 * t + BELOW], t))
}
