// What the clip program says of the bytes that it has read: one line, `genuine S L` or `refused R` (document 01, "The clip envelope"). All that decides is here;
// the program reads its input and writes the line. The call takes any arguments, and has its work of its own.

#![tactic(auto)]

ghost use Rattle.std.specs.Prelude.{◌≡◌, ◌+◌, ◌≤◌, length, take};
ghost use Rattle.memory.specs.Lists.{over, put};
ghost use Rattle.refusals.specs.Refusals.{work_length, work_after};
ghost use Rattle.report.specs.Decimal.{decimal};
ghost use Rattle.report.specs.Report.{genuine_line, refused_line, answer_line, clip_number, clip_line};

use envelope::Header;
use refusals::{Refusal, WORK};

// Room for the longest line: `genuine`, a set of one digit and a length of five.
pub const ROOM: usize = 16;

// The most bytes that the program reads.
pub const INPUT: usize = 65536;

// The line for what the program has read: the first n bytes of the input, or all of them where n is more. Writes the line over the start of the lent one, and gives its length.
pub fn clip_line(input: &[u8; INPUT], n: usize, line: &mut [u8; ROOM]) -> usize
    ensures { (result ≡ length (clip_line (take n input.now))) × (line.new ≡ over (clip_line (take n input.now)) line.old) }
{
    let mut work = [0u8; WORK];
    let answer = genuine_header(&input[..memory::lesser(n, INPUT)], &mut work);
    lay_out(answer, line)
}

// The header of a genuine clip: reading the envelope, then verifying it, for which work is lent.
fn genuine_header(input: &[u8], work: &mut [u8]) -> Result<Header, Refusal>
    requires { work_length ≤ length work.old }
    ensures line { answer_line result ≡ clip_line input.now }
    ensures work { work.new ≡ work_after (clip_number input.now) work.old }
{
    let header = envelope::read(input)?;
    let key = envelope::public_key_of(input);
    let message = envelope::message_of(input);
    let signature = envelope::signature_of(input);
    calls::verify(header.set, key, message, signature, work)?;
    Ok(header)
}

// Writes the line of an answer over the start of the line, and gives its length.
fn lay_out(answer: Result<Header, Refusal>, line: &mut [u8; ROOM]) -> usize
    requires { length (answer_line answer) ≤ length line.old }
    ensures { (result ≡ length (answer_line answer)) × (line.new ≡ over (answer_line answer) line.old) }
{
    match answer {
        Ok(header) => put_genuine(header, line),
        Err(refusal) => put_refused(refusal.number(), line),
    }
}

// Lays out `refused R` at the start of the line.
#[tactic(auto, using(crate::proofs::Lines::length_refused))]
fn put_refused(number: u8, line: &mut [u8]) -> usize
    requires { length (refused_line number) ≤ length line.old }
    ensures { (result ≡ length (refused_line number)) × (line.new ≡ put line.old 0 (refused_line number)) }
{
    let a = put_bytes(b"refused ", 0, line);
    let e = put_decimal(usize::from(number), a, line);
    put_bytes(b"\n", e, line)
}

// Lays out `genuine S L` at the start of the line.
#[tactic(auto, using(crate::proofs::Lines::length_genuine))]
fn put_genuine(h: Header, line: &mut [u8]) -> usize
    requires { length (genuine_line h) ≤ length line.old }
    ensures { (result ≡ length (genuine_line h)) × (line.new ≡ put line.old 0 (genuine_line h)) }
{
    let a = put_bytes(b"genuine ", 0, line);
    let b = put_decimal(h.set, a, line);
    let d = put_bytes(b" ", b, line);
    let e = put_decimal(h.length, d, line);
    put_bytes(b"\n", e, line)
}

// Writes bytes from the place `at` on, and gives the place behind them.
fn put_bytes(bytes: &[u8], at: usize, line: &mut [u8]) -> usize
    requires { at + length bytes.now ≤ length line.old }
    ensures { (result ≡ at + length bytes.now) × (line.new ≡ put line.old at bytes.now) }
{
    let end = at + bytes.len();
    line[at..end].copy_from_slice(bytes);
    end
}

// Writes a number in decimal from the place `at` on, and gives the place behind it.
// Stays: digits are laid out by hand, since the project has no heap and `format!` takes one.
fn put_decimal(n: usize, at: usize, line: &mut [u8]) -> usize
    requires { at + length (decimal n) ≤ length line.old }
    ensures { (result ≡ at + length (decimal n)) × (line.new ≡ put line.old at (decimal n)) }
{
    if n < 10 {
        line[at] = b'0' + n as u8;
        return at + 1;
    }
    let last = put_decimal(n / 10, at, line);
    line[last] = b'0' + (n % 10) as u8;
    last + 1
}
