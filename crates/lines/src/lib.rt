// What the test programs print with, and how they make their inputs: a line names a case and has its bytes in hexadecimal.
// The independent program prints the same lines from the same rules. What is printed cannot be promised: the kit says nothing of what a program has written.

#![tactic(auto)]

ghost use Rattle.std.specs.Prelude.{◌≡◌, ◌+◌, ◌*◌, ◌%◌, ◌<◌, length, get_or};
ghost use Rattle.memory.specs.Lists.{table};
ghost use Rattle.field.specs.Packing.{Elements};

use sponge::Sponge;
use std::io;

// The name of a case, a part at a time.
pub fn words(rt: HostRuntime, text: &[u8]) -> io::Result<()> {
    rt.write_all(text)
}

// A number in the name of a case.
pub fn number(rt: HostRuntime, n: usize) -> io::Result<()> {
    rt.print(n)
}

// A colon, the bytes in hexadecimal and the end of the line.
pub fn bytes_line(rt: HostRuntime, bytes: &[u8]) -> io::Result<()> {
    rt.write_all(b":")?;
    if !bytes.is_empty() {
        rt.write_all(b" ")?;
    }
    for b in bytes {
        print!(rt; "{b:02x}")?;
    }
    rt.write_all(b"\n")
}

// Bytes that are many, as 32 bytes of SHAKE256.
pub fn digest_line(rt: HostRuntime, bytes: &[u8]) -> io::Result<()> {
    hash_line(rt, Sponge::new().absorb(bytes))
}

// What was absorbed, as 32 bytes of SHAKE256.
pub fn hash_line(rt: HostRuntime, hash: Sponge) -> io::Result<()> {
    let mut digest = [0u8; 32];
    hash.finish().squeeze(&mut digest);
    bytes_line(rt, &digest)
}

// Fills `out`: the i-th byte is step times i plus start, modulo 256.
pub fn progression(step: usize, start: usize, out: &mut [u8])
    requires { (step < 256) × (start < 256) }
    ensures { out.new ≡ table (length out.old) (λ i. (step * i + start) % 256) }
{
    let mut x = start;
    for b in out.iter_mut() {
        *b = (x % 256) as u8;
        x = (x + step) % 256;
    }
}

// Each byte modulo 16, so that it is an element of the field.
pub fn elements(out: &mut [u8])
    ensures { (length out.new ≡ length out.old) × (Elements out.new) × (out.new ≡ table (length out.old) (λ i. get_or out.old i 0 % 16)) }
{
    for b in out.iter_mut() {
        *b %= 16;
    }
}
