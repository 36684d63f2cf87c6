// What is lent to run beside an accepted table: answers 10, 11 and 12, then the cycles.
ghost use Rattle.std.specs.Prelude.{◌≡◌, ◌≤◌};
ghost use Rattle.meaning.specs.Answer.{accepted, decide};
ghost use Rattle.answers.specs.Numbered.{check_told};
ghost use Rattle.engine.specs.Said.{lent_checks, ProceedAsks, Proceeds};

use answers::Refusal;
use rows::{Declared, Filed};

// Answers 10, 11 and 12, by what the table declares and how far its counters rise. No number of the table is at n or
// past it.
fn judge_lent(
    image: &[u8],
    words: &[u8],
    report: &[u8],
    known: Declared,
    times: &[u32; 192],
    n: usize,
) -> Result<(), Refusal>
    requires { n ≤ 128 }
    ensures { check_told result ≡ decide (lent_checks image.now words.now report.now known times.now) (accepted 0) }
{
    if image.len() != 768 {
        return Err(Refusal::State { record: 192 });
    }
    if let Some(record) = state::first_wrong(image, known, times, n) {
        return Err(Refusal::State { record });
    }
    if words.len() % 8 != 0 {
        return Err(Refusal::Words);
    }
    if 4096 < words.len() {
        return Err(Refusal::Words);
    }
    if report.len() < 24 * (words.len() / 8) {
        return Err(Refusal::Room);
    }
    Ok(())
}

// run behind an accepted table, by what is filed of it: answers 10, 11 and 12, then one cycle a word.
pub fn proceed(
    n: usize,
    known: Declared,
    image: &mut [u8],
    words: &[u8],
    report: &mut [u8],
    filed: &Filed<'_>,
) -> Result<usize, Refusal>
    requires { ProceedAsks n known filed.now.rows.now filed.now.times.now filed.now.weights.now filed.now.sorts.now
        filed.now.heads.now filed.now.posts.now }
    ensures { Proceeds n known filed.now.rows.now filed.now.times.now filed.now.weights.now filed.now.sorts.now
        filed.now.heads.now filed.now.posts.now image.old words.now report.old result image.new report.new }
{
    judge_lent(image, words, report, known, filed.times, n)?;
    cycles::play(n, known.transitions, image, words, report, filed)
}
