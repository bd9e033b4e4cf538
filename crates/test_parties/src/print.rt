// How the cases are named and their hashes printed.
ghost use Rattle.test_parties.specs.Laid.{Laid};

use crate::cases::Case;
use sets::LONGEST_HASH;
use sponge::Sponge;
use std::io;

// The name of a case: signing, or verifying with a hidden party.
fn name(rt: HostRuntime, k: Case) -> io::Result<()> {
    lines::words(rt, b"set ")?;
    lines::number(rt, k.set)?;
    match k.hidden {
        None => lines::words(rt, b", signing"),
        Some(party) => {
            lines::words(rt, b", hidden ")?;
            lines::number(rt, party)?;
            lines::words(rt, if k.changed { b", changed path" } else { b"" })
        }
    }
}

// The line of these bytes.
pub fn bytes(rt: HostRuntime, k: Case, text: &[u8], bytes: &[u8]) -> io::Result<()> {
    name(rt, k)?;
    lines::words(rt, text)?;
    lines::bytes_line(rt, bytes)
}

// The line of what the repetition gives to a hash.
pub fn part(rt: HostRuntime, k: Case, text: &[u8], part: Sponge) -> io::Result<()> {
    name(rt, k)?;
    lines::words(rt, text)?;
    lines::hash_line(rt, part)
}

// The line of a hash, which is put into `out`.
pub fn hash(rt: HostRuntime, k: Case, text: &[u8], hash: Sponge, out: &mut [u8]) -> io::Result<()> {
    let t = hash.finish();
    t.squeeze(out);
    bytes(rt, k, text, out)
}

// The line of a hash of two seeds' length.
pub fn hash_line(rt: HostRuntime, k: Case, text: &[u8], value: Sponge) -> io::Result<()>
    requires { Laid k }
{
    let h = 2 * k.s;
    let mut out = [0u8; LONGEST_HASH];
    hash(rt, k, text, value, &mut out[0..h])
}
