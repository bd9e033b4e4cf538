// The first hash of the signer, and what it puts among the vectors of a repetition: the corrections, the target, and the challenge that is expanded from the hash.
ghost use Rattle.std.specs.Prelude.{◌≡◌, ◌*◌, ◌≤◌, length};
ghost use Rattle.test_parties.specs.Laid.{Laid};

use crate::cases::{Case, REPETITION, VALUES, WORK};
use crate::trial::Trial;
use sets::{MOST_EQUATIONS, MOST_VARIABLES, Params};
use sponge::Sponge;

// The bytes of the longest challenges of three repetitions.
const CHALLENGES: usize = 183;

// The hash after the commitments and the corrections, which are put into their places, as t is.
pub fn signed(hash: Sponge, t: Trial<'_>, values: &mut [u8; VALUES], work: &[u8; WORK]) -> Sponge {
    let k = t.case;
    let mut secret = [0u8; MOST_VARIABLES];
    let mut y = [0u8; MOST_EQUATIONS];
    let secret = &mut secret[0..k.n];
    let y = &mut y[0..k.m];
    secret_elements(secret);
    put_target(k, secret, y, values, &work[0..k.leaves]);
    correct(hash, t, secret, y, values, &work[k.leaves..k.room])
}

// Fills `out` with the elements of the secret.
fn secret_elements(out: &mut [u8]) {
    lines::progression(7, 1, out);
    lines::elements(out);
}

// Fills `y` with the second values of the secret, and puts t, its first, into its place.
fn put_target(k: Case, secret: &[u8], y: &mut [u8], values: &mut [u8], circuit: &[u8])
    requires { (Laid k) × (length secret.now ≡ k.n) × (length y.old ≡ k.m) × (length values.old ≡ 602) × (length circuit.now ≡ k.leaves) }
{
    let from = k.n + 2 * k.m;
    let mut t = [0u8; MOST_EQUATIONS];
    let t = &mut t[0..k.m];
    forms::eval_circuit(circuit, k.n, k.m, secret, y, t);
    memory::copy(t, &mut values[from..from + k.m]);
}

// The same hash for a secret and its y, from the leaves.
fn correct(
    hash: Sponge,
    t: Trial<'_>,
    secret: &[u8],
    y: &[u8],
    values: &mut [u8],
    leaves: &[u8],
) -> Sponge
    requires { (length secret.now ≡ t.case.n) × (length y.now ≡ t.case.m) × (length values.old ≡ 602) × (length leaves.now ≡ 16 * t.case.groups * t.case.s) }
{
    let k = t.case;
    let p = Params {
        bits: 8 * k.s,
        n: k.n,
        m: k.m,
        tau: 1,
        l: k.l,
    };
    let mut ds = [0u8; MOST_VARIABLES];
    let mut dc = [0u8; MOST_EQUATIONS];
    let ds = &mut ds[0..k.n];
    let dc = &mut dc[0..k.m];
    let next = views::repetition_first(hash, p, 16 * k.groups, t.of, leaves, secret, y, ds, dc);
    memory::copy(ds, &mut values[0..k.n]);
    memory::copy(dc, &mut values[k.n..k.n + k.m]);
    next
}

// Puts the challenge of the repetition into its place.
pub fn put_challenge(k: Case, h1: &[u8], values: &mut [u8])
    requires { (Laid k) × (length values.old ≡ 602) }
{
    let width = k.m.div_ceil(2);
    let from = (REPETITION - 1) * width;
    let a = k.n + k.m;
    let mut bytes = [0u8; CHALLENGES];
    forms::tape_bytes(h1, &mut bytes);
    field::unpack_into(&bytes[from..from + width], &mut values[a..a + k.m]);
}
