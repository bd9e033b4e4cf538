// Prints the system of equations for all six sets: the circuit of a seed, the values of a secret, the linear parts of the forms at the shares of sixteen parties, and
// the challenges and hidden parties of all repetitions. A set whose sizes have no room prints nothing. The file `stdout` is what the independent program prints for
// `expected forms`.

#![tactic(auto)]

mod circuit;
mod expanded;
mod print;
mod shares;
mod vectors;

use sets::{LONGEST_SEED, MOST_EQUATIONS, MOST_REPETITIONS, MOST_VARIABLES};
use std::io;

// The most levels that a tree has.
const LEVELS: usize = 8;

fn main(rt: HostRuntime) -> io::Result<()> {
    for set in 1..=6 {
        one_set(rt, set)?;
    }
    Ok(())
}

// The lines of a set.
fn one_set(rt: HostRuntime, set: usize) -> io::Result<()> {
    let p = sets::params_of(set);
    let s = p.bits / 8;
    if LONGEST_SEED < s || MOST_VARIABLES < p.n || MOST_EQUATIONS < p.m {
        return Ok(());
    }
    if MOST_REPETITIONS < p.tau || LEVELS < p.l {
        return Ok(());
    }
    circuit::of_seed(rt, set, s, p.n, p.m)?;
    expanded::challenges(rt, set, s, p.m, p.tau)?;
    expanded::hidden_parties(rt, set, s, p.tau, p.l)
}
