// Runs the calls of the desk for all six sets, and prints a line a case: its name, the bits that are changed for it, what is lent, the answer, and what the call left in work and in its outputs.
// The cases are both sides of every size, which of two refusals wins, keys that are not consistent, signatures that are accepted, and damage in every part of a key, a message and a signature
// (`table`). The file `stdout` is what the independent program prints for `expected desk`.

#![tactic(auto)]

mod line;
mod places;
mod row_marks;
mod runs;
mod table;

use crate::places::{SIGNATURE, STORE};
use crate::table::{ROW, ROWS};
use std::io;

// The rows of all sets, as if there were a set 0.
const END: usize = 658;

fn main(rt: HostRuntime) -> io::Result<()> {
    let mut store = [0u8; STORE];
    let mut signature = [0u8; SIGNATURE];
    lines::progression(11, 7, &mut store);
    all(rt, &mut store, &mut signature)
}

// Runs all cases. What the calls take is in the store, where keys are put too; the last signature is beside it.
fn all(
    rt: HostRuntime,
    store: &mut [u8; STORE],
    signature: &mut [u8; SIGNATURE],
) -> io::Result<()> {
    for i in ROWS..END {
        case(rt, i / ROWS, i % ROWS, store, signature)?;
    }
    Ok(())
}

// Runs the case of a row, where the set has it.
fn case(
    rt: HostRuntime,
    set: usize,
    i: usize,
    store: &mut [u8; STORE],
    signature: &mut [u8; SIGNATURE],
) -> io::Result<()> {
    let mut row = [b' '; ROW];
    table::row(i, &mut row);
    if row_marks::named(rt, set, &row)? {
        changed(rt, set, &row, store, signature)?;
    }
    Ok(())
}

// Runs a case with its bits changed, and puts them back.
fn changed(
    rt: HostRuntime,
    set: usize,
    row: &[u8; ROW],
    store: &mut [u8; STORE],
    signature: &mut [u8; SIGNATURE],
) -> io::Result<()> {
    row_marks::change(set, row, store, signature);
    run(rt, set, row, store, signature)?;
    row_marks::change(set, row, store, signature);
    Ok(())
}

// Makes the call of a case.
fn run(
    rt: HostRuntime,
    set: usize,
    row: &[u8; ROW],
    store: &mut [u8; STORE],
    signature: &mut [u8; SIGNATURE],
) -> io::Result<()> {
    match row[0] {
        b'1' => runs::make_keys(rt, set, row, store),
        b'2' => runs::public_half(rt, set, row, store),
        b'3' => runs::sign(rt, set, row, store, signature),
        _ => runs::verify(rt, set, row, store, signature),
    }
}
