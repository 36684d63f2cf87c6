// The program that counts a day: reads net.bin in the current directory and the reports that its arguments name, counts
// and adds them in order, and prints the cycles, how often each transition fired, the net change of each place, and the
// end line, whose last number is how many reports were counted. A refusal prints the end line alone.
#![tactic(auto)]

use std::env::FillError;
use std::io;
use std::rt::{Env, Files};
use summary::Refused;

// The three lines of a day: the cycles, how often each transition fired, and the net change of each place.
fn lines(rt: &impl Print, day: &[u32; 65], net: &[i64; 128]) -> io::Result<()> {
    print!(rt; "cycles {}\nfired", day[0])?;
    for times in &day[1..] {
        print!(rt; " {times}")?;
    }
    print!(rt; "\nchange")?;
    for change in net {
        print!(rt; " {change}")?;
    }
    println!(rt)
}

// The last line of what is refused, behind so many counted reports.
fn refuse(rt: &impl Print, refused: Refused, reports: usize) -> io::Result<()> {
    programs::end(rt, refused.number(), refused.at(), reports)
}

// What a day comes to, with the net change, which a refused table has not.
fn tell(rt: &impl Print, t: &[u8], day: &[u32; 65], reports: usize) -> io::Result<()> {
    match summary::net_change(t, day) {
        Ok(net) => {
            lines(rt, day, &net)?;
            programs::end(rt, 0, 0, reports)
        }
        Err(refused) => refuse(rt, refused, reports),
    }
}

// The day so far with the report that argument k names: counted, and added.
fn with(
    rt: &(impl Env + Files),
    t: &[u8],
    day: &[u32; 65],
    k: usize,
) -> Result<[u32; 65], Refused> {
    let mut name = [0u8; 4096];
    let mut report = [0u8; 12312];
    let n = rt.arg(k, &mut name).unwrap_or(0);
    let m = programs::read(rt, &name[..n], &mut report);
    let one = summary::count(t, &report[..m])?;
    summary::add(day, &one)
}

// The day of all reports; arguments count from 0, which is the program's own name.
fn play(rt: &(impl Env + Files + Print), t: &[u8], arguments: usize) -> io::Result<()> {
    let mut day = [0u32; 65];
    for k in 1..arguments {
        match with(rt, t, &day, k) {
            Ok(sum) => day = sum,
            Err(refused) => return refuse(rt, refused, k - 1),
        }
    }
    tell(rt, t, &day, arguments.saturating_sub(1))
}

// How many arguments there are, the program's own name among them.
fn argument_count(rt: &impl Env) -> usize {
    for k in 0..usize::MAX {
        if let Err(FillError::NotPresent) = rt.arg(k, &mut []) {
            return k;
        }
    }
    usize::MAX
}

fn main(rt: HostRuntime) -> io::Result<()> {
    let mut net = [0u8; 8200];
    let n = programs::read(&rt, b"net.bin", &mut net);
    play(&rt, &net[..n], argument_count(&rt))
}
