// The program: reads net.bin and words.bin in the current directory, starts the net, runs it, and prints a line for
// each finished cycle and the end line.
#![tactic(auto)]

use std::io;

// The line of one finished cycle: its number, then fired, actions and functions, each as 16 hex digits.
fn line(rt: &impl Print, report: &[u8], cycle: usize) -> io::Result<()> {
    print!(rt; "{cycle}")?;
    for set in engine::lookup(report, cycle).chunks_exact(8) {
        print!(rt; " {:016x}", numbers::eight(set, 0))?;
    }
    println!(rt)
}

// The lines of the finished cycles, from 1 on.
fn lines(rt: &impl Print, report: &[u8], cycles: usize) -> io::Result<()> {
    for cycle in 1..=cycles {
        line(rt, report, cycle)?;
    }
    Ok(())
}

// Starts the net and runs it on the words; a start that refuses has the last word.
fn play(rt: &impl Print, t: &[u8], words: &[u8]) -> io::Result<()> {
    let mut image = [0u8; 768];
    if let Err(refusal) = engine::start(t, &mut image) {
        return programs::refuse(rt, refusal);
    }
    let mut report = [0u8; 12288];
    match engine::run(t, &mut image, words, &mut report) {
        Ok(cycles) => {
            lines(rt, &report, cycles)?;
            programs::end(rt, 0, 0, cycles)
        }
        Err(refusal) => {
            lines(rt, &report, refusal.cycles())?;
            programs::refuse(rt, refusal)
        }
    }
}

fn main(rt: HostRuntime) -> io::Result<()> {
    let mut net = [0u8; 8200];
    let mut words = [0u8; 4104];
    let n = programs::read(&rt, b"net.bin", &mut net);
    let m = programs::read(&rt, b"words.bin", &mut words);
    play(&rt, &net[..n], &words[..m])
}
