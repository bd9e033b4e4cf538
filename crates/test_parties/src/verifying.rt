// The lines of verifying: the hidden party's α, the first hash, and then the second.
ghost use Rattle.std.specs.Prelude.{◌≡◌, ◌*◌, ◌≤◌, length};

use crate::cases::{VALUES, WORK};
use crate::trial::Trial;
use crate::{inputs, print, second};
use sets::{LONGEST_HASH, LONGEST_SEED, MOST_EQUATIONS};
use sponge::Sponge;
use std::io;
use views::{Given, Leaves};

// The lines of a verifier; none where no party is hidden.
pub fn lines(
    rt: HostRuntime,
    t: Trial<'_>,
    h1: &[u8],
    values: &mut [u8; VALUES],
    work: &mut [u8; WORK],
) -> io::Result<()> {
    if let Some(party) = t.case.hidden {
        first_lines(rt, t, party, values, work)?;
        second::lines(rt, t, h1, values, work)?;
    }
    Ok(())
}

// The lines of α and of the first hash, from what the signer opens: the hidden party's seed and its commitment.
fn first_lines(
    rt: HostRuntime,
    t: Trial<'_>,
    party: usize,
    values: &mut [u8; VALUES],
    work: &mut [u8; WORK],
) -> io::Result<()>
    requires { (1 ≤ party) × (party ≤ 16 * t.case.groups) }
{
    let s = t.case.s;
    let mut seed = [0u8; LONGEST_SEED];
    let mut commitment = [0u8; LONGEST_HASH];
    let seed = &mut seed[0..s];
    let commitment = &mut commitment[0..2 * s];
    inputs::hidden_seed(t, party, seed);
    t.of.commit(party, seed, commitment);
    put_alpha(rt, t, party, seed, values, work)?;
    inputs::put_leaves(t, work);
    hash_lines(rt, t, Given { party, commitment }, values, work)
}

// Puts the α of the party with this seed into its place, and prints it, once for a party.
fn put_alpha(
    rt: HostRuntime,
    t: Trial<'_>,
    party: usize,
    seed: &[u8],
    values: &mut [u8; VALUES],
    work: &[u8; WORK],
) -> io::Result<()>
    requires { (1 ≤ party) × (party ≤ 16 * t.case.groups) × (length seed.now ≡ t.case.s) }
{
    let k = t.case;
    let from = k.n + 3 * k.m;
    let mut alpha = [0u8; MOST_EQUATIONS];
    let alpha = &mut alpha[0..k.m];
    let all = &mut values[0..from + k.m];
    lines::elements(all);
    single::alpha_of(
        t.rep(0),
        t.of.salt,
        &work[0..k.leaves],
        all,
        party,
        seed,
        alpha,
    );
    if !k.changed {
        print::bytes(rt, k, b", alpha", alpha)?;
    }
    memory::copy(alpha, &mut all[from..from + k.m]);
    Ok(())
}

// The lines of the first hash.
fn hash_lines(
    rt: HostRuntime,
    t: Trial<'_>,
    given: Given<'_>,
    values: &[u8; VALUES],
    work: &[u8; WORK],
) -> io::Result<()> {
    let part = first_hash(Sponge::new(), t, given, values, work);
    print::part(rt, t.case, b", commitments and corrections, digest", part)?;
    let start = inputs::first_start(t.of.salt);
    let first = first_hash(start, t, given, values, work);
    print::hash_line(rt, t.case, b", first hash", first)
}

// The hash after the commitments of all parties and both corrections.
fn first_hash(
    hash: Sponge,
    t: Trial<'_>,
    given: Given<'_>,
    values: &[u8; VALUES],
    work: &[u8; WORK],
) -> Sponge {
    let k = t.case;
    let leaves = Leaves {
        of: t.of,
        seeds: &work[k.leaves..k.room],
        size: k.s,
        count: 16 * k.groups,
    };
    let next = leaves.commit_all(hash, Some(given));
    views::absorb_corrections(next, &values[0..k.n], &values[k.n..k.n + k.m])
}
