// A count for the day: what fired over the cycles of a report, two summaries added, and what that changed at each
// place. Each call has its answer table in docs/ENGINE.md.
#![tactic(auto)]

ghost use Rattle.std.specs.Prelude.{◌≡◌, ◌&&◌, not, ℕ, ◌+◌, ◌/◌, ◌≤◌, ◌<◌, eqb, length, get_or};
ghost use Rattle.meaning.specs.Below.{IsFirst};
ghost use Rattle.meaning.specs.Bytes.{bit};
ghost use Rattle.meaning.specs.Table.{table, transition};
ghost use Rattle.summary.specs.declared.Refused.TheVariants.{Table};
ghost use Rattle.summary.specs.Day.{bad_report, summary, too_often, plus};
ghost use Rattle.summary.specs.Told.{refused_told, day_told, counts_of, change_of};
ghost use Rattle.summary.specs.Promised.{Counted, Added, NetChanged};
ghost use Rattle.summary.specs.Parts.{strange_by, Ticks, Ticked};

use answers::Refusal;
use records::Kind;
use std::array;

mod flow; // flow.rt: what the arcs move

// Why a call refuses: the table, the report or a count. A record is counted from 0; 512 is a report of a wrong length.
#[derive(Clone, Copy, Debug, PartialEq, Eq)]
pub enum Refused {
    Table(Refusal),
    Report { record: usize },
    Count,
}

impl Refused {
    // The page's number.
    pub fn number(self) -> usize
        ensures { result ≡ (refused_told self).number }
    {
        match self {
            Refused::Table(refusal) => refusal.number(),
            Refused::Report { .. } => 14,
            Refused::Count => 15,
        }
    }

    // The page's where.
    pub fn at(self) -> usize
        ensures { result ≡ (refused_told self).at }
    {
        match self {
            Refused::Table(refusal) => refusal.at(),
            Refused::Report { record } => record,
            Refused::Count => 0,
        }
    }
}

impl From<Refusal> for Refused {
    ghost from_gives = { λ refusal r. r ≡ Table refusal };

    fn from(refusal: Refusal) -> Refused {
        Refused::Table(refusal)
    }
}

// COUNT

// Where the fired word stands in the 24 bytes of a cycle.
const FIRED: usize = 0;

// Is the length no multiple of 24, or above 12,288?
#[tactic(auto, unfolding(crate::specs::Day::bad_report))]
fn is_bad(report: &[u8]) -> bool
    ensures { result ≡ bad_report report.now }
{
    report.len() % 24 != 0 || 12288 < report.len()
}

// A set of transitions, less the one that a record declares.
fn struck(s: u64, kind: u8, one: u8) -> u64
    ensures { (k : ℕ) → bit result k ≡ (bit s k && not (eqb kind 2 && eqb one k)) }
{
    if kind == Kind::Transition as u8 && one < 64 {
        sets::less(s, sets::single(usize::from(one)))
    } else {
        s
    }
}

// The transitions that a table does not declare.
fn undeclared(t: &[u8]) -> u64
    ensures { (k : ℕ) → k < 64 → bit result k ≡ not (transition (table t.now) k) }
{
    let mut left = u64::MAX;
    for r in 0..t.len() / 8 {
        left = struck(left, t[8 * r], t[8 * r + 1]);
    }
    left
}

// The first record in which a member of `unknown` fired, if there is one.
fn first_strange(report: &[u8], unknown: u64) -> Option<usize>
    ensures { IsFirst (length report.now / 24) (strange_by unknown report.now) result }
{
    for r in 0..report.len() / 24 {
        if sets::meet(numbers::eight(report, 24 * r + FIRED), unknown) {
            return Some(r);
        }
    }
    None
}

// Counts each member of a fired set once.
#[tactic(auto, using(sets::proofs::Bits::bit_zero))]
fn tick(fired: u64, counts: &mut [u32; 65])
    requires { Ticks counts.old }
    ensures { Ticked fired counts.old counts.new }
{
    for t in sets::members(fired) {
        counts[t + 1] += 1;
    }
}

// The summary of a report of at most 512 records, whose number so fits four bytes; u32::try_from would ask again.
fn summarize(report: &[u8]) -> [u32; 65]
    requires { length report.now ≤ 12288 }
    ensures { result ≡ summary report.now }
{
    let records = report.len() / 24;
    let mut counts = [0u32; 65];
    for r in 0..records {
        tick(numbers::eight(report, 24 * r + FIRED), &mut counts);
    }
    counts[0] = records as u32;
    counts
}

// count: answers 1 to 9, then 14; accepted, the summary of the report.
pub fn count(t: &[u8], report: &[u8]) -> Result<[u32; 65], Refused>
    ensures { Counted t.now report.now (day_told result) (counts_of result) }
{
    engine::check(t)?;
    if is_bad(report) {
        return Err(Refused::Report { record: 512 });
    }
    if let Some(record) = first_strange(report, undeclared(t)) {
        return Err(Refused::Report { record });
    }
    Ok(summarize(report))
}

// ADD

// Has a summary a transition that fired more often than its cycles?
fn fires_too_often(s: &[u32; 65]) -> bool
    ensures { result ≡ too_often s.now }
{
    s[1..].iter().any(|times| s[0] < *times)
}

// Two summaries, number by number.
fn sum(one: &[u32; 65], other: &[u32; 65]) -> [u32; 65]
    requires { (i : ℕ) → i < 65 → get_or one.now i 0 + get_or other.now i 0 ≤ 4294967295 }
    ensures { result ≡ plus one.now other.now }
{
    array::from_fn(|i| one[i] + other[i])
}

// add: answers 15; accepted, the sum of the two.
pub fn add(one: &[u32; 65], other: &[u32; 65]) -> Result<[u32; 65], Refused>
    ensures { Added one.now other.now (day_told result) (counts_of result) }
{
    if fires_too_often(one) || fires_too_often(other) || one[0].checked_add(other[0]).is_none() {
        return Err(Refused::Count);
    }
    Ok(sum(one, other))
}

// NET CHANGE

// net_change: answers 1 to 9, then 15; accepted, what the firings of the summary changed at each place.
#[tactic(auto, using(crate::proofs::Outcomes::short))]
pub fn net_change(t: &[u8], s: &[u32; 65]) -> Result<[i64; 128], Refused>
    ensures { NetChanged t.now s.now (day_told result) (change_of result) }
{
    engine::check(t)?;
    if fires_too_often(s) {
        return Err(Refused::Count);
    }
    let put = flow::moves(t, 3, s);
    let taken = flow::moves(t, 0, s);
    Ok(flow::differences(&put, &taken))
}
