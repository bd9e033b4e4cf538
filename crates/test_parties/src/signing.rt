// The lines of signing: the corrections, the first hash, and then the second.
use crate::cases::{VALUES, WORK};
use crate::trial::Trial;
use crate::{first, inputs, print, second};
use sponge::Sponge;
use std::io;

// The lines of signing. The vectors of the repetition are put into `values`, and the first hash into `h1`.
pub fn lines(
    rt: HostRuntime,
    t: Trial<'_>,
    h1: &mut [u8],
    values: &mut [u8; VALUES],
    work: &mut [u8; WORK],
) -> io::Result<()> {
    inputs::put_leaves(t, work);
    first_lines(rt, t, h1, values, work)?;
    first::put_challenge(t.case, h1, values);
    second::lines(rt, t, h1, values, work)
}

// The lines of the corrections and of the first hash.
fn first_lines(
    rt: HostRuntime,
    t: Trial<'_>,
    h1: &mut [u8],
    values: &mut [u8; VALUES],
    work: &[u8; WORK],
) -> io::Result<()> {
    let k = t.case;
    let part = first::signed(Sponge::new(), t, values, work);
    print::bytes(rt, k, b", delta s", &values[0..k.n])?;
    print::bytes(rt, k, b", delta c", &values[k.n..k.n + k.m])?;
    print::part(rt, k, b", commitments and corrections, digest", part)?;
    let start = inputs::first_start(t.of.salt);
    let hash = first::signed(start, t, values, work);
    print::hash(rt, k, b", first hash", hash, h1)
}
