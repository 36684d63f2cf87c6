// What the programs share: how they read and write a file, and the end line.
#![tactic(auto)]

ghost use Rattle.std.specs.Counts.{IsPrefixLen};

use answers::Refusal;
use std::io::Read;
use std::rt::Files;
use std::{fs, io, str};

// Reads until the buffer is full, the file ends or a read fails; how many bytes of it now stand in the buffer.
fn fill(file: &mut impl Read, buf: &mut [u8]) -> usize
    ensures { IsPrefixLen result buf.new }
{
    let mut done = 0;
    // A read comes in any length, so that no index is counted here.
    while done < buf.len() {
        match file.read(&mut buf[done..]) {
            Ok(0) | Err(_) => break,
            Ok(n) => done += n,
        }
    }
    done
}

// What a file holds, as far as the buffer goes; nothing where it cannot be read.
pub fn read(rt: &impl Files, name: &[u8], buf: &mut [u8]) -> usize
    ensures { IsPrefixLen result buf.new }
{
    let Ok(path) = str::from_utf8(name) else {
        return 0;
    };
    match fs::open(rt, path) {
        Ok(mut file) => fill(&mut file, buf),
        Err(_) => 0,
    }
}

// Makes a file of these bytes, in place of what it held. Could all of them be written?
fn written(rt: &impl Files, name: &[u8], bytes: &[u8]) -> bool {
    let Ok(path) = str::from_utf8(name) else {
        return false;
    };
    fs::write(rt, path, bytes).is_ok()
}

// The same, with a line that says so where it could not be done.
pub fn write(rt: &(impl Files + Print), name: &[u8], bytes: &[u8]) -> io::Result<bool> {
    let all = written(rt, name, bytes);
    if !all {
        rt.write_all(name)?;
        println!(rt; " cannot be written; see to the folder's rights and room")?;
    }
    Ok(all)
}

// The last line: number and where of an answer, and how much was done.
pub fn end(rt: &impl Print, number: usize, at: usize, done: usize) -> io::Result<()> {
    println!(rt; "end {number} {at} {done}")
}

// The last line of what is refused.
pub fn refuse(rt: &impl Print, refusal: Refusal) -> io::Result<()> {
    end(rt, refusal.number(), refusal.at(), refusal.cycles())
}
