// Runs the clip program's check on many stored clips, and prints each case's name and line. `data/cases` has a line of 72 bytes for each: a name, the name of a stored clip, the
// length at which it is taken, the place of one byte, and what is added to that byte by exclusive or. The independent program makes the clips, the cases and the expected lines.

#![tactic(auto)]

ghost use Rattle.std.specs.Prelude.{◌≤◌, ◌<◌, length, IfOk};

use std::io::{Read, Write};
use std::{fs, io, str};

// The width of a case, and where its columns begin and end.
const CASE: usize = 72;

const NAME_END: usize = 48;

const CLIP_END: usize = 55;

// The most cases that are read, in bytes, and the longest clip that a case makes.
const CASES: usize = 16384;

const LONGEST: usize = 70000;

fn main(rt: HostRuntime) -> io::Result<()> {
    let mut cases = [0u8; CASES];
    let n = load(rt, "cases", &mut cases)?;
    run_all(rt, &cases[..n])
}

// Runs every whole case of the list.
fn run_all(rt: HostRuntime, cases: &[u8]) -> io::Result<()> {
    for case in cases.chunks_exact(CASE) {
        run(rt, case)?;
    }
    Ok(())
}

// Runs one case: prints its name, makes its clip, and checks that.
fn run(rt: HostRuntime, case: &[u8]) -> io::Result<()> {
    if case.len() < CASE {
        return Ok(());
    }
    rt.write_all(&case[0..name_len(case)])?;
    rt.write_all(b": ")?;
    if !make(rt, case) {
        return rt.write_all(b"no clip was made\n");
    }
    match fs::open(&rt, "made") {
        Ok(file) => checking::check(rt, file),
        Err(_) => rt.write_all(b"no clip was opened\n"),
    }
}

// How long the name of a case is: what stands before the last spaces of its column.
fn name_len(case: &[u8]) -> usize
    requires { 72 ≤ length case.now }
    ensures { result ≤ 48 }
{
    match case[..NAME_END].iter().rposition(|byte| *byte != b' ') {
        Some(last) => last + 1,
        None => 0,
    }
}

// Makes the clip of a case, and stores it under the name `made`; false where a file could not be read or written.
fn make(rt: HostRuntime, case: &[u8]) -> bool
    requires { 72 ≤ length case.now }
{
    let mut clip = [0u8; LONGEST];
    let Ok(name) = str::from_utf8(&case[NAME_END..CLIP_END]) else {
        return false;
    };
    if load(rt, name, &mut clip).is_err() {
        return false;
    }
    turn(&mut clip, number(&case[62..67]), number(&case[68..71]));
    store(rt, &clip, number(&case[56..61]))
}

// Adds bits to one byte by exclusive or.
fn turn(clip: &mut [u8], place: usize, bits: usize) {
    if place < clip.len() {
        clip[place] = clip[place] ^ (bits % 256) as u8;
    }
}

// Stores so many bytes of the clip.
fn store(rt: HostRuntime, clip: &[u8], length: usize) -> bool {
    if clip.len() < length {
        return false;
    }
    match fs::create(&rt, "made") {
        Ok(mut file) => file.write_all(&clip[0..length]).is_ok(),
        Err(_) => false,
    }
}

// Reads the file of that name over the start of a part, until the part is full or the file ends, and gives how many bytes that was.
// Stays: a loop over `read`, since `read_to_end` fills a `Vec` and the project has no heap.
fn load(rt: HostRuntime, name: &str, part: &mut [u8]) -> io::Result<usize>
    ensures { IfOk result (λ n. n ≤ length part.new) }
{
    let mut file = fs::open(&rt, name)?;
    let mut done = 0;
    while done < part.len() {
        let n = file.read(&mut part[done..])?;
        if n == 0 {
            break;
        }
        done += n;
    }
    Ok(done)
}

// The number that digits spell in decimal, modulo a million.
fn number(digits: &[u8]) -> usize {
    let mut n: usize = 0;
    for byte in digits {
        n = (n * 10 + digit(*byte)) % 1000000;
    }
    n
}

// The value of a digit.
fn digit(byte: u8) -> usize
    ensures { result < 16 }
{
    usize::from(byte) % 16
}
