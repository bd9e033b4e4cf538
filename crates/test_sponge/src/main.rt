// Prints answers of SHAKE256, one line a case: published messages, both sides of a block at the input and at the output, each whole and
// in pieces, and a place far into a long output. The file `stdout` is what the independent program prints
// for `expected sponge`; `tests/make-expected` writes it.

#![tactic(auto)]

ghost use Rattle.std.specs.Prelude.{◌≤◌};

use sponge::{Sponge, Tape};
use std::io;

fn main(rt: HostRuntime) -> io::Result<()> {
    published(rt)?;
    inputs(rt)?;
    outputs(rt)?;
    far(rt)
}

// The messages with published answers.
fn published(rt: HostRuntime) -> io::Result<()> {
    let mut out = [0u8; 512];
    tape_of(b"").squeeze(&mut out);
    print!(rt; "empty message, 512 bytes")?;
    lines::bytes_line(rt, &out)?;
    tape_of(&[0xa3u8; 200]).squeeze(&mut out);
    print!(rt; "200 bytes of a3, 512 bytes")?;
    lines::bytes_line(rt, &out)
}

// Both sides of a block at the input.
fn inputs(rt: HostRuntime) -> io::Result<()> {
    for n in [0, 1, 135, 136, 137, 271, 272, 273] {
        input(rt, n)?;
    }
    Ok(())
}

// Both sides of a block at the output.
fn outputs(rt: HostRuntime) -> io::Result<()> {
    for n in [0, 1, 135, 136, 137, 272, 273] {
        output(rt, n)?;
    }
    Ok(())
}

// 64 bytes of a message of n bytes, absorbed whole and in pieces.
fn input(rt: HostRuntime, n: usize) -> io::Result<()>
    requires { n ≤ 273 }
{
    let message = pattern();
    let mut out = [0u8; 64];
    tape_of(&message[..n]).squeeze(&mut out);
    print!(rt; "input {n}, whole, 64 bytes")?;
    lines::bytes_line(rt, &out)?;
    tape_of_pieces(&message[..n]).squeeze(&mut out);
    print!(rt; "input {n}, in pieces, 64 bytes")?;
    lines::bytes_line(rt, &out)
}

// n bytes of the message of 137 bytes, squeezed whole and in turns.
fn output(rt: HostRuntime, n: usize) -> io::Result<()>
    requires { n ≤ 273 }
{
    let message = pattern();
    let tape = tape_of(&message[0..137]);
    let mut out = [0u8; 273];
    tape.squeeze(&mut out[..n]);
    print!(rt; "output {n}, whole")?;
    lines::bytes_line(rt, &out[..n])?;
    let mut again = [0u8; 273];
    squeeze_in_turns(tape, &mut again[..n]);
    print!(rt; "output {n}, in turns")?;
    lines::bytes_line(rt, &again[..n])
}

// A place far into a long output.
fn far(rt: HostRuntime) -> io::Result<()> {
    let message = pattern();
    let mut out = [0u8; 16448];
    tape_of(&message[0..136]).squeeze(&mut out);
    print!(rt; "long output, bytes 16384 to 16448 of input 136")?;
    lines::bytes_line(rt, &out[16384..])
}

// The message whose byte i is 7i + 3 modulo 256.
fn pattern() -> [u8; 273] {
    let mut message = [0u8; 273];
    lines::progression(7, 3, &mut message);
    message
}

// The tape of a message.
fn tape_of(message: &[u8]) -> Tape {
    Sponge::new().absorb(message).finish()
}

// The tape of a message that is absorbed in pieces of 1, 2, 3, .. bytes.
fn tape_of_pieces(message: &[u8]) -> Tape {
    let mut sponge = Sponge::new();
    let mut rest = message;
    let mut n = 1;
    while !rest.is_empty() {
        let (piece, later) = rest.split_at(n.min(rest.len()));
        sponge = sponge.absorb(piece);
        rest = later;
        n += 1;
    }
    sponge.finish()
}

// Fills `out` from the tape in turns of 1, 2, 3, .. bytes.
fn squeeze_in_turns(tape: Tape, out: &mut [u8]) {
    let mut tape = tape;
    let mut rest = out;
    let mut n = 1;
    while !rest.is_empty() {
        let k = n.min(rest.len());
        let (turn, later) = rest.split_at_mut(k);
        tape = tape.squeeze(turn);
        rest = later;
        n += 1;
    }
}
