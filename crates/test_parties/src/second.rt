// The lines of the second hash, of the signer and of a verifier alike.
ghost use Rattle.std.specs.Prelude.{◌≡◌};

use crate::cases::{VALUES, WORK};
use crate::trial::Trial;
use crate::{inputs, print};
use sponge::Sponge;
use std::io;

// The line of what the repetition gives to the second hash, and the line of this hash.
pub fn lines(
    rt: HostRuntime,
    t: Trial<'_>,
    h1: &[u8],
    values: &mut [u8; VALUES],
    work: &mut [u8; WORK],
) -> io::Result<()> {
    let part = second_hash(Sponge::new(), t, values, work);
    print::part(rt, t.case, b", all alpha and all v, digest", part)?;
    let start = hashes::second(t.of.salt, h1);
    let second = second_hash(start, t, values, work);
    print::hash_line(rt, t.case, b", second hash", second)
}

// The hash after the answers of all parties.
fn second_hash(
    hash: Sponge,
    t: Trial<'_>,
    values: &mut [u8; VALUES],
    work: &mut [u8; WORK],
) -> Sponge {
    let k = t.case;
    inputs::put_leaves(t, work);
    let rep = t.rep(k.hidden.unwrap_or(0));
    let values = &mut values[0..k.n + 4 * k.m];
    lines::elements(values);
    answers::answers(hash, rep, t.of.salt, values, &mut work[0..k.end])
}
