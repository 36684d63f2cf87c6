// The program that shows what a run leaves: reads net.bin and words.bin in the current directory as the sequencer does,
// and prints the state image of the fresh net and after each finished cycle, then the sequencer's end line.
#![tactic(auto)]

use std::io;

// The line of one state: the cycle that left it, 0 for the fresh net, then the image, eight bytes as 16 hex digits.
fn state(rt: &impl Print, image: &[u8], cycle: usize) -> io::Result<()> {
    print!(rt; "{cycle}")?;
    for eight in image.chunks_exact(8) {
        print!(rt; " {:016x}", numbers::eight(eight, 0))?;
    }
    println!(rt)
}

// The states of so many cycles, from the fresh net on, a word each: each cycle runs on the image that the one before
// left.
fn states(
    rt: &impl Print,
    t: &[u8],
    image: &mut [u8],
    words: &[u8],
    cycles: usize,
) -> io::Result<()> {
    // The same start and the same words were accepted before, so that no answer is left to be told.
    engine::start(t, image).ok();
    state(rt, image, 0)?;
    for (cycle, word) in (1..=cycles).zip(words.chunks_exact(8)) {
        let mut record = [0u8; 24];
        engine::run(t, image, word, &mut record).ok();
        state(rt, image, cycle)?;
    }
    Ok(())
}

// Starts the net and runs it on the words, which says how many cycles it finishes; then their states.
fn play(rt: &impl Print, t: &[u8], words: &[u8]) -> io::Result<()> {
    let mut image = [0u8; 768];
    if let Err(refusal) = engine::start(t, &mut image) {
        return programs::refuse(rt, refusal);
    }
    let mut report = [0u8; 12288];
    match engine::run(t, &mut image, words, &mut report) {
        Ok(cycles) => {
            states(rt, t, &mut image, words, cycles)?;
            programs::end(rt, 0, 0, cycles)
        }
        Err(refusal) => {
            states(rt, t, &mut image, words, refusal.cycles())?;
            programs::refuse(rt, refusal)
        }
    }
}

fn main(rt: HostRuntime) -> io::Result<()> {
    let mut net = [0u8; 8200];
    let mut words = [0u8; 4104];
    let n = programs::read(&rt, b"net.bin", &mut net);
    let m = programs::read(&rt, b"words.bin", &mut words);
    play(&rt, &net[..n], &words[..m])
}
