// What the rest of a line says of the bytes that a call was lent: outputs and work are filled before the call, so that a byte that it wrote shows.
use refusals::Refusal;
use sponge::Sponge;
use std::io;

// The bytes of work that a call uses.
const WORK: usize = 65536;

// The answer, and what became of work.
pub fn ended(rt: HostRuntime, answer: Result<(), Refusal>, work: &[u8]) -> io::Result<()> {
    lines::words(rt, b": answer ")?;
    lines::number(rt, usize::from(refusals::number_of(&answer)))?;
    if is_left(0, work) {
        return lines::words(rt, b", work as it was");
    }
    if is_left(WORK, work) {
        return lines::words(rt, b", work cleared");
    }
    lines::words(rt, b", work changed")
}

// All bytes of an output by their digest, where they are not as they were.
pub fn output(rt: HostRuntime, bytes: &[u8]) -> io::Result<()> {
    if is_left(0, bytes) {
        return lines::words(rt, b", output as it was\n");
    }
    lines::words(rt, b", output")?;
    lines::digest_line(rt, bytes)
}

// The same of two outputs, one after the other.
pub fn outputs(rt: HostRuntime, first: &[u8], second: &[u8]) -> io::Result<()> {
    if is_left(0, first) && is_left(0, second) {
        return lines::words(rt, b", output as it was\n");
    }
    let s = Sponge::new();
    let t = s.absorb(first);
    lines::words(rt, b", output")?;
    lines::hash_line(rt, t.absorb(second))
}

// Fills a part before a call.
pub fn fill(out: &mut [u8]) {
    lines::progression(31, 17, out);
}

// Whether the first bytes of a part, so many, are zero, and the others are as they were filled.
fn is_left(zeros: usize, bytes: &[u8]) -> bool {
    let mut x = 17;
    for (i, byte) in bytes.iter().enumerate() {
        let wanted = if i < zeros { 0 } else { x };
        if usize::from(*byte) != wanted {
            return false;
        }
        x = (x + 31) % 256;
    }
    true
}
