// Prints repetition 3 of signing and of verifying for sets 2 and 5: the corrections, what the repetition gives to both hashes, and both hashes of a signature
// that has this repetition only; then the same for a verifier to whom the first, the sixth or the last party is hidden, and for one who is given
// a path with a changed byte. The file `stdout` is what the independent program prints for `expected parties`.

#![tactic(auto)]

mod cases;
mod first;
mod inputs;
mod print;
mod second;
mod signing;
mod trial;
mod verifying;

use crate::cases::{REPETITION, VALUES, WORK};
use crate::trial::Trial;
use hashes::Salted;
use sets::LONGEST_HASH;
use std::io;

// The cases of a set: the signer, and four verifiers.
const CASES: usize = 5;

fn main(rt: HostRuntime) -> io::Result<()> {
    one_set(rt, 2)?;
    one_set(rt, 5)
}

// The lines of all cases of a set.
fn one_set(rt: HostRuntime, set: usize) -> io::Result<()> {
    let mut values = [0u8; VALUES];
    let mut work = [0u8; WORK];
    let mut salt = [0u8; LONGEST_HASH];
    let mut h1 = [0u8; LONGEST_HASH];
    let case = cases::of(set, 0);
    let h = 2 * case.s;
    lines::progression(3, 1, &mut salt);
    let of = Salted {
        salt: &salt[0..h],
        e: REPETITION,
    };
    inputs::put_circuit(case, &mut work);
    signing::lines(
        rt,
        Trial { case, of },
        &mut h1[0..h],
        &mut values,
        &mut work,
    )?;
    for i in 1..CASES {
        let case = cases::of(set, i);
        verifying::lines(rt, Trial { case, of }, &h1[0..h], &mut values, &mut work)?;
    }
    Ok(())
}
