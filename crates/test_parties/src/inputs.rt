// What the cases take: the circuit, and the leaves of the root or of the hidden party's path, which are put into the work; and the message. All of it comes from progressions.
ghost use Rattle.std.specs.Prelude.{◌≡◌, ◌*◌, ◌≤◌, ◌<◌, length};
ghost use Rattle.test_parties.specs.Laid.{Laid};

use crate::cases::{Case, PATH};
use crate::trial::Trial;
use sets::LONGEST_SEED;
use sponge::Sponge;

// The bytes of the message.
const MESSAGE: usize = 40;

// Puts the circuit into its place.
pub fn put_circuit(k: Case, work: &mut [u8])
    requires { (Laid k) × (length work.old ≡ 60768) }
{
    let mut seed = [0u8; LONGEST_SEED];
    lines::progression(11, 7, &mut seed);
    forms::tape_bytes(&seed[0..k.s], &mut work[0..k.leaves]);
}

// Puts the leaves into their place: those of the root for the signer, and those that the path gives for a verifier.
pub fn put_leaves(t: Trial<'_>, work: &mut [u8])
    requires { length work.old ≡ 60768 }
{
    let k = t.case;
    let leaves = &mut work[k.leaves..k.room];
    match k.hidden {
        None => root_leaves(t, leaves),
        Some(party) => path_leaves(t, party, leaves),
    }
}

// Fills `out` with the leaves of the root.
fn root_leaves(t: Trial<'_>, out: &mut [u8])
    requires { length out.old ≡ 16 * t.case.groups * t.case.s }
{
    let k = t.case;
    let mut root = [0u8; LONGEST_SEED];
    lines::progression(5, 2, &mut root);
    tree::leaves(t.of, &root[0..k.s], k.l, out);
}

// Fills `out` with the leaves that the path of the hidden party gives.
fn path_leaves(t: Trial<'_>, party: usize, out: &mut [u8])
    requires { (1 ≤ party) × (party ≤ 16 * t.case.groups) × (length out.old ≡ 16 * t.case.groups * t.case.s) }
{
    let k = t.case;
    let mut leaf = [0u8; LONGEST_SEED];
    let mut path = [0u8; PATH];
    let path = &mut path[0..k.way];
    open(t, party, &mut leaf[0..k.s], path);
    change(k.changed, path);
    tree::rebuild(t.of, path, k.l, party, k.s, out);
}

// Fills `leaf` with the seed of the hidden party.
pub fn hidden_seed(t: Trial<'_>, party: usize, leaf: &mut [u8])
    requires { (1 ≤ party) × (party ≤ 16 * t.case.groups) × (length leaf.old ≡ t.case.s) }
{
    let mut path = [0u8; PATH];
    open(t, party, leaf, &mut path[0..t.case.way]);
}

// Fills `leaf` with the seed of the hidden party and `path` with its path, from the root.
fn open(t: Trial<'_>, party: usize, leaf: &mut [u8], path: &mut [u8])
    requires { (1 ≤ party) × (party ≤ 16 * t.case.groups) × (length leaf.old ≡ t.case.s) × (length path.old ≡ t.case.way) }
{
    let k = t.case;
    let mut root = [0u8; LONGEST_SEED];
    lines::progression(5, 2, &mut root);
    tree::path(t.of, &root[0..k.s], k.l, party, leaf, path);
}

// Changes a bit of the first byte, where that is asked for.
fn change(changed: bool, path: &mut [u8]) {
    if changed && 0 < path.len() {
        path[0] ^= 1;
    }
}

// What the first hash absorbs in front of the repetitions.
pub fn first_start(salt: &[u8]) -> Sponge {
    let mut message = [0u8; MESSAGE];
    lines::progression(19, 4, &mut message);
    hashes::first(salt).absorb(&message)
}
