// Phase 1 of signing, algorithm 12 lines 6 to 22, and what verifying needs of it: the commitments of all parties are absorbed into the first hash, the
// tapes are added up byte by byte, and the corrections are worked out of the sums and absorbed. One loop serves signing and verifying, where the
// hidden party has a given commitment. No secret chooses a branch; the product alone reads its table at a place that its operands give.

#![tactic(auto)]

mod leaves;

ghost use Rattle.std.specs.Prelude.{◌≡◌, ◌+◌, ◌*◌, ◌^◌, ◌≤◌, ◌<◌, length, take, drop};
ghost use mathlib.Core.List.{◌++◌, flatten};
ghost use Rattle.memory.specs.Sections.{pieces};
ghost use Rattle.field.specs.Packing.{pack, packed_length, unpack};
ghost use Rattle.field.specs.Vectors.{◌⊕◌, ◌⊙◌};
ghost use Rattle.sponge.specs.Steps.{absorbed};
ghost use Rattle.sets.specs.Sets.{S};
ghost use Rattle.hashes.specs.Hashes.{commit, expand_tape};
ghost use Rattle.parties.specs.Parties.{parties};
ghost use Rattle.parties.specs.Repetition.{tape_length};
ghost use Rattle.views.specs.Views.{tape_sum, correction_s, correction_c, given_in, FirstPhase};

use hashes::Salted;
pub use leaves::{Given, Leaves};
use parties::LONGEST_TAPE;
use sets::{LONGEST_HASH, Params};
use sponge::Sponge;

// The bytes of 128 packed elements, more than a correction has.
const PACKED: usize = 64;

// One repetition of signing: gives the hash after all commitments and both corrections, and fills `ds` and `dc` with the corrections.
pub fn repetition_first(
    hash: Sponge,
    p: Params,
    count: usize,
    of: Salted<'_>,
    leaves: &[u8],
    s: &[u8],
    y: &[u8],
    ds: &mut [u8],
    dc: &mut [u8],
) -> Sponge
    requires { (S p ≤ 32) × (0 < count) × (length leaves.now ≡ count * S p) × (p.n ≤ 118) × (p.m ≤ 121) × (length s.now ≡ p.n) × (length y.now ≡ p.m) × (length ds.old ≡ p.n) × (length dc.old ≡ p.m) }
    ensures { FirstPhase p of.entry.salt.now of.entry.e s.now y.now (pieces (S p) count leaves.now) hash result ds.new dc.new }
{
    let leaves = Leaves {
        of,
        seeds: leaves,
        size: p.bits / 8,
        count,
    };
    let next = leaves.commit_all(hash, None);
    let mut room = [0u8; LONGEST_TAPE];
    let n = tape_length(s.len(), y.len());
    leaves.sum_tapes(&mut room[0..n]);
    corrections(s, y, &room[0..n], ds, dc);
    absorb_corrections(next, ds, dc)
}

impl<'b> Leaves<'_, 'b> {
    // Algorithm 12, line 9, and algorithm 13, line 12: absorbs the commitments of all parties in order, among them the given one.
    pub fn commit_all(self, hash: Sponge, given: Option<Given<'_>>) -> Sponge
        requires { 0 < self.count }
        ensures { result ≡ absorbed hash (flatten (parties (given_in given.entry (commit self.entry.size self.entry.of.salt.now self.entry.of.e)) (pieces self.entry.size self.entry.count self.entry.seeds.now))) }
    {
        let mut next = self.commit_at(0, hash, given);
        for i in 1..self.count {
            next = self.commit_at(i, next, given);
        }
        next
    }

    // Fills `sums` with the sum of all parties' tapes, as many bytes of each as it has room for.
    pub fn sum_tapes(self, sums: &mut [u8])
        requires { length sums.old ≤ 181 }
        ensures { sums.new ≡ tape_sum self.entry.of.salt.now self.entry.of.e (length sums.old) (pieces self.entry.size self.entry.count self.entry.seeds.now) }
    {
        memory::clear(sums);
        for i in 0..self.count {
            self.add_tape(i, sums);
        }
    }

    // Absorbs the commitment of the party whose leaf is at place i: party i + 1.
    fn commit_at(self, i: usize, hash: Sponge, given: Option<Given<'_>>) -> Sponge
        requires { i < self.count }
        ensures { result ≡ absorbed hash (given_in given.entry (commit self.entry.size self.entry.of.salt.now self.entry.of.e) (i + 1) (take self.entry.size (drop (i * self.entry.size) self.entry.seeds.now))) }
    {
        match given {
            Some(known) if known.party == i + 1 => hash.absorb(known.commitment),
            _ => commit_seed(hash, self.of, i + 1, self.leaf(i)),
        }
    }

    // Adds the tape of the party whose leaf is at place i: party i + 1.
    fn add_tape(self, i: usize, sums: &mut [u8])
        requires { (i < self.count) × (length sums.old ≤ 181) }
        ensures { sums.new ≡ sums.old ⊕ expand_tape self.entry.of.salt.now self.entry.of.e (i + 1) (take self.entry.size (drop (i * self.entry.size) self.entry.seeds.now)) (length sums.old) }
    {
        let mut room = [0u8; LONGEST_TAPE];
        let n = sums.len();
        self.of.tape(i + 1, self.leaf(i), &mut room[0..n]);
        add(&room[0..n], sums);
    }

    // The leaf at place i.
    fn leaf(self, i: usize) -> &'b [u8]
        requires { i < self.count }
        ensures { (result.now ≡ take self.entry.size (drop (i * self.entry.size) self.entry.seeds.now)) × (length result.now ≡ self.entry.size) }
    {
        let at = i * self.size;
        &self.seeds[at..at + self.size]
    }
}

// Absorbs the commitment of party i to its seed.
fn commit_seed(hash: Sponge, of: Salted<'_>, i: usize, seed: &[u8]) -> Sponge
    requires { length seed.now ≤ 32 }
    ensures { result ≡ absorbed hash (commit (length seed.now) of.entry.salt.now of.entry.e i seed.now) }
{
    let mut room = [0u8; LONGEST_HASH];
    let n = 2 * seed.len();
    of.commit(i, seed, &mut room[0..n]);
    hash.absorb(&room[0..n])
}

// How many bytes of a tape n variables and m equations take.
fn tape_length(n: usize, m: usize) -> usize
    requires { (n ≤ 118) × (m ≤ 121) }
    ensures { (result ≡ tape_length n m) × (result ≤ 181) }
{
    let a = packed_length(m);
    packed_length(n) + a + a
}

// How many bytes n packed elements take.
fn packed_length(n: usize) -> usize
    requires { n ≤ 128 }
    ensures { (result ≡ packed_length n) × (result ≤ 64) }
{
    (n + 1) / 2
}

// Adds the bytes of `more` to those of `sums`.
fn add(more: &[u8], sums: &mut [u8])
    requires { length more.now ≡ length sums.old }
    ensures { sums.new ≡ sums.old ⊕ more.now }
{
    for (i, sum) in sums.iter_mut().enumerate() {
        *sum ^= more[i];
    }
}

// Algorithm 12, lines 14 and 15: fills `ds` and `dc` with the corrections, from s, y and the sum of all tapes.
pub fn corrections(s: &[u8], y: &[u8], sums: &[u8], ds: &mut [u8], dc: &mut [u8])
    requires { (length s.now ≤ 118) × (length y.now ≤ 121) × (length ds.old ≡ length s.now) × (length dc.old ≡ length y.now) }
    ensures secret { ds.new ≡ correction_s (length s.now) s.now sums.now }
    ensures helper { dc.new ≡ correction_c (length s.now) (length y.now) y.now sums.now }
{
    correct_secret(s, sums, ds);
    let mask = packed_length(s.len());
    let helper = mask + packed_length(y.len());
    correct_helper(y, sums, mask, helper, dc);
}

// Δs: s less the sum of the shares, element by element.
fn correct_secret(s: &[u8], sums: &[u8], ds: &mut [u8])
    requires { length ds.old ≡ length s.now }
    ensures { ds.new ≡ correction_s (length s.now) s.now sums.now }
{
    for (k, d) in ds.iter_mut().enumerate() {
        *d = s[k] ^ field::element(sums, k);
    }
}

// Δc: y times the mask less the helper, element by element, with the sums of both read from the bytes `mask` and `helper` on.
fn correct_helper(y: &[u8], sums: &[u8], mask: usize, helper: usize, dc: &mut [u8])
    requires { (length dc.old ≡ length y.now) × (mask ≤ 181) × (helper ≤ 181) × (length y.now ≤ 121) }
    ensures { dc.new ≡ y.now ⊙ unpack (length y.now) (drop mask sums.now) ⊕ unpack (length y.now) (drop helper sums.now) }
{
    for (k, d) in dc.iter_mut().enumerate() {
        let a = field::element(sums, mask * 2 + k);
        let c = field::element(sums, helper * 2 + k);
        *d = field::product(y[k], a) ^ c;
    }
}

// Algorithm 12, line 22: absorbs Δs packed, then Δc packed.
pub fn absorb_corrections(hash: Sponge, ds: &[u8], dc: &[u8]) -> Sponge
    requires { (length ds.now ≤ 128) × (length dc.now ≤ 128) }
    ensures { result ≡ absorbed hash (pack ds.now ++ pack dc.now) }
{
    absorb_packed(absorb_packed(hash, ds), dc)
}

// Absorbs the elements, packed.
fn absorb_packed(hash: Sponge, elements: &[u8]) -> Sponge
    requires { length elements.now ≤ 128 }
    ensures { result ≡ absorbed hash (pack elements.now) }
{
    let mut room = [0u8; PACKED];
    let n = packed_length(elements.len());
    field::pack_into(elements, &mut room);
    hash.absorb(&room[0..n])
}
