// What is expanded from the hashes: the challenges and the hidden parties of all repetitions.
ghost use Rattle.std.specs.Prelude.{◌≤◌};

use crate::{print, vectors};
use sets::{LONGEST_HASH, MOST_REPETITIONS};
use sponge::Sponge;
use std::io;

// The bytes of all challenges of the longest set.
const CHALLENGES: usize = 4453;

// The challenges of all repetitions.
pub fn challenges(rt: HostRuntime, set: usize, s: usize, m: usize, tau: usize) -> io::Result<()>
    requires { (s ≤ 32) × (m ≤ 121) × (tau ≤ 73) }
{
    let mut hash = [0u8; LONGEST_HASH];
    lines::progression(13, 5, &mut hash);
    let mut bytes = [0u8; CHALLENGES];
    forms::tape_bytes(&hash[..2 * s], &mut bytes);
    let all = vectors::absorb_vectors(Sponge::new(), &bytes, 0, m, tau);
    print::case(rt, set, "challenges, digest")?;
    lines::hash_line(rt, all)
}

// The hidden parties of all repetitions.
pub fn hidden_parties(rt: HostRuntime, set: usize, s: usize, tau: usize, l: usize) -> io::Result<()>
    requires { (s ≤ 32) × (tau ≤ 73) × (l ≤ 8) }
{
    let mut hash = [0u8; LONGEST_HASH];
    lines::progression(17, 9, &mut hash);
    let mut bytes = [0u8; MOST_REPETITIONS];
    let mut hidden = [0u8; MOST_REPETITIONS];
    forms::tape_bytes(&hash[..2 * s], &mut bytes);
    for (i, party) in hidden[..tau].iter_mut().enumerate() {
        *party = one_less(forms::hidden_party(&bytes, l, i + 1));
    }
    print::case(rt, set, "hidden parties less 1")?;
    lines::bytes_line(rt, &hidden[..tau])
}

// A party's number less 1; it fits a byte.
fn one_less(party: usize) -> u8 {
    (party.wrapping_sub(1) % 256) as u8
}
