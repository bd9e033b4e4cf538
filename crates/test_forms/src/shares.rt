// The linear parts of the forms at the shares of sixteen parties, which stand in the lanes of words.
ghost use Rattle.std.specs.Prelude.{◌≤◌, ◌<◌, length};

use crate::circuit::Equations;
use crate::print;
use sets::{MOST_EQUATIONS, MOST_VARIABLES};
use sponge::Sponge;
use std::io;

// The linear parts of the three forms at the shares of sixteen parties.
pub fn linear_parts(rt: HostRuntime, of: Equations<'_>) -> io::Result<()> {
    let (n, m) = (of.n, of.m);
    let mut shares = [0u64; MOST_VARIABLES];
    share_words(&mut shares);
    let mut x = [0u64; MOST_EQUATIONS];
    let mut y = [0u64; MOST_EQUATIONS];
    let mut z = [0u64; MOST_EQUATIONS];
    linear::linear_forms(
        of.circuit,
        n,
        m,
        &shares[..n],
        &mut x[..m],
        &mut y[..m],
        &mut z[..m],
    );
    let first = absorb_lanes(Sponge::new(), &x[..m]);
    let second = absorb_lanes(first, &y[..m]);
    let all = absorb_lanes(second, &z[..m]);
    print::case(rt, of.set, "linear forms of sixteen parties, digest")?;
    lines::hash_line(rt, all)
}

// The shares, sixteen to a word: lane q of word i is 5 i + 3 q + 1 modulo 16.
fn share_words(shares: &mut [u64])
    requires { length shares.old ≤ 118 }
{
    for (i, word) in shares.iter_mut().enumerate() {
        *word = share_word(i);
    }
}

// The word i of the shares, from its last lane to its first.
fn share_word(i: usize) -> u64
    requires { i ≤ 118 }
{
    let mut w: u64 = 0;
    for q in (0..16).rev() {
        w = (w << 4) ^ (((5 * i + 3 * q + 1) % 16) as u64);
    }
    w
}

// Absorbs the elements in all lanes of the words, lane by lane.
fn absorb_lanes(hash: Sponge, words: &[u64]) -> Sponge
    requires { length words.now ≤ 121 }
{
    let mut hash = hash;
    for q in 0..16 {
        hash = absorb_lane(hash, words, q);
    }
    hash
}

// Absorbs the elements in lane q of the words.
fn absorb_lane(hash: Sponge, words: &[u64], q: usize) -> Sponge
    requires { (length words.now ≤ 121) × (q < 16) }
{
    let mut elements = [0u8; MOST_EQUATIONS];
    for (element, word) in elements.iter_mut().zip(words) {
        *element = lane(*word, q);
    }
    hash.absorb(&elements[..words.len()])
}

// The element in lane q of a word.
fn lane(w: u64, q: usize) -> u8
    requires { q < 16 }
{
    ((w >> (4 * q)) % 16) as u8
}
