// The program that makes one call of run as a station makes it: reads net.bin, words.bin and image.bin in the current
// directory, runs the net on the words from that image, leaves report.bin and image.bin, and prints the sequencer's end
// line. Where there is no image the net is started.
#![tactic(auto)]

use answers::Refusal;
use std::io;
use std::rt::Files;

// The records of so many cycles, as that part of the report; an empty part where it does not hold them whole.
fn finished(report: &[u8], cycles: usize) -> &[u8] {
    if cycles <= report.len() / 24 {
        &report[..24 * cycles]
    } else {
        &report[..0]
    }
}

// The report first, and the image only behind it: without its report a call counts as not made.
fn keep(rt: &(impl Files + Print), report: &[u8], image: &[u8]) -> io::Result<()> {
    if programs::write(rt, b"report.bin", report)? {
        programs::write(rt, b"image.bin", image)?;
    }
    Ok(())
}

// One call of run from this image, and what it leaves: image and finished records where it is accepted, or stops at a
// full place.
fn call(rt: &(impl Files + Print), t: &[u8], image: &mut [u8], words: &[u8]) -> io::Result<()> {
    let mut report = [0u8; 12288];
    match engine::run(t, image, words, &mut report) {
        Ok(cycles) => {
            keep(rt, finished(&report, cycles), image)?;
            programs::end(rt, 0, 0, cycles)
        }
        Err(refusal) => {
            if let Refusal::Full { cycles, .. } = refusal {
                keep(rt, finished(&report, cycles), image)?;
            }
            programs::refuse(rt, refusal)
        }
    }
}

// The first call, from the image of the fresh net; a start that refuses has the last word.
fn first(rt: &(impl Files + Print), t: &[u8], words: &[u8]) -> io::Result<()> {
    let mut image = [0u8; 768];
    if let Err(refusal) = engine::start(t, &mut image) {
        return programs::refuse(rt, refusal);
    }
    call(rt, t, &mut image, words)
}

fn main(rt: HostRuntime) -> io::Result<()> {
    let mut net = [0u8; 8200];
    let mut words = [0u8; 4104];
    let mut image = [0u8; 772];
    let n = programs::read(&rt, b"net.bin", &mut net);
    let m = programs::read(&rt, b"words.bin", &mut words);
    let k = programs::read(&rt, b"image.bin", &mut image);
    if k == 0 {
        return first(&rt, &net[..n], &words[..m]);
    }
    call(&rt, &net[..n], &mut image[..k], &words[..m])
}
