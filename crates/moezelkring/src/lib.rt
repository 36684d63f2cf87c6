// The engine's calls for C: include/moezelkring.h is the manual. Each promises what the engine's own call promises.
#![tactic(auto)]

ghost use Rattle.std.specs.Prelude.{◌≡◌};
ghost use Rattle.meaning.specs.Promise.{Checked, Started, Ran};
ghost use Rattle.answers.specs.Numbered.{check_told, run_told, refusal_told};
ghost use Rattle.summary.specs.Day.{empty, no_change};
ghost use Rattle.summary.specs.Told.{refused_told};
ghost use Rattle.summary.specs.Promised.{Counted, Added, NetChanged};
ghost use Rattle.moezelkring.specs.Exported.{told, counted, changed, PartOf};

use answers::Refusal;
use summary::Refused;

// An answer as C is given it, in numbers: its number (0 accepted), the page's where, the cycles done.
#[repr(C)]
#[derive(Clone, Copy)]
pub struct Told {
    pub number: usize,
    pub at: usize,
    pub cycles: usize,
}

impl From<Refusal> for Told {
    ghost from_gives = { λ refusal t. told t ≡ refusal_told refusal };

    fn from(refusal: Refusal) -> Told {
        Told {
            number: refusal.number(),
            at: refusal.at(),
            cycles: refusal.cycles(),
        }
    }
}

impl From<Result<(), Refusal>> for Told {
    ghost from_gives = { λ checked t. told t ≡ check_told checked };

    fn from(checked: Result<(), Refusal>) -> Told {
        match checked {
            Ok(()) => Told {
                number: 0,
                at: 0,
                cycles: 0,
            },
            Err(refusal) => Told::from(refusal),
        }
    }
}

impl From<Result<usize, Refusal>> for Told {
    ghost from_gives = { λ ran t. told t ≡ run_told ran };

    fn from(ran: Result<usize, Refusal>) -> Told {
        match ran {
            Ok(cycles) => Told {
                number: 0,
                at: 0,
                cycles,
            },
            Err(refusal) => Told::from(refusal),
        }
    }
}

// A part of a report: where it starts and how long it is.
#[repr(C)]
#[derive(Clone, Copy)]
pub struct Part {
    pub from: usize,
    pub length: usize,
}

// A summary as C is given it: answer number and where, then the cycles and how often each transition fired; a
// refusal's are all 0.
#[repr(C)]
#[derive(Clone, Copy)]
pub struct Sum {
    pub number: usize,
    pub at: usize,
    pub counts: [u32; 65],
}

impl From<Refused> for Sum {
    ghost from_gives = { λ refused s. (counted s ≡ refused_told refused) × (s.counts ≡ empty) };

    fn from(refused: Refused) -> Sum {
        Sum {
            number: refused.number(),
            at: refused.at(),
            counts: [0; 65],
        }
    }
}

// A net change as C is given it: answer number and where, then a signed number for each place; a refusal's are all 0.
#[repr(C)]
#[derive(Clone, Copy)]
pub struct Difference {
    pub number: usize,
    pub at: usize,
    pub change: [i64; 128],
}

impl From<Refused> for Difference {
    ghost from_gives = { λ refused d. (changed d ≡ refused_told refused) × (d.change ≡ no_change) };

    fn from(refused: Refused) -> Difference {
        Difference {
            number: refused.number(),
            at: refused.at(),
            change: [0; 128],
        }
    }
}

// Answers 1 to 9 of a table, or accepted.
#[unsafe(no_mangle)]
pub extern "C" fn mk_check(table: &[u8]) -> Told
    ensures { Checked table.now (told result) }
{
    Told::from(engine::check(table))
}

// The image of a fresh net; a refusal writes nothing.
#[unsafe(no_mangle)]
pub extern "C" fn mk_start(table: &[u8], image: &mut [u8]) -> Told
    ensures { Started table.now image.old (told result) image.new }
{
    Told::from(engine::start(table, image))
}

// One cycle a word; a refusal before any cycle writes nothing, and 13 keeps the finished cycles.
#[unsafe(no_mangle)]
pub extern "C" fn mk_run(table: &[u8], image: &mut [u8], words: &[u8], report: &mut [u8]) -> Told
    ensures { Ran table.now image.old words.now report.old (told result)
        image.new report.new }
{
    Told::from(engine::run(table, image, words, report))
}

// Where the part that engine::lookup hands back starts, and how long it is; an empty part starts at 0.
#[unsafe(no_mangle)]
pub extern "C" fn mk_lookup(report: &[u8], cycle: usize) -> Part
    ensures { PartOf report.now cycle result }
{
    let part = engine::lookup(report, cycle);
    if part.len() == 0 {
        return Part { from: 0, length: 0 };
    }
    Part {
        from: 24 * (cycle - 1),
        length: part.len(),
    }
}

// How often each transition fired in the cycles of a report.
#[unsafe(no_mangle)]
pub extern "C" fn mk_count(table: &[u8], report: &[u8]) -> Sum
    ensures { Counted table.now report.now (counted result) result.counts }
{
    match summary::count(table, report) {
        Ok(counts) => Sum {
            number: 0,
            at: 0,
            counts,
        },
        Err(refused) => Sum::from(refused),
    }
}

// Two summaries added.
#[unsafe(no_mangle)]
pub extern "C" fn mk_add(one: &[u32; 65], other: &[u32; 65]) -> Sum
    ensures { Added one.now other.now (counted result) result.counts }
{
    match summary::add(one, other) {
        Ok(counts) => Sum {
            number: 0,
            at: 0,
            counts,
        },
        Err(refused) => Sum::from(refused),
    }
}

// What the firings of a summary changed at each place.
#[unsafe(no_mangle)]
pub extern "C" fn mk_net_change(table: &[u8], counts: &[u32; 65]) -> Difference
    ensures { NetChanged table.now counts.now (changed result) result.change }
{
    match summary::net_change(table, counts) {
        Ok(change) => Difference {
            number: 0,
            at: 0,
            change,
        },
        Err(refused) => Difference::from(refused),
    }
}
