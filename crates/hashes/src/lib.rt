// Who hashes what: one function for each use of SHAKE256 that section 4.4 of the submission names. A use begins with a fixed byte of its own, written
// ahead of its fields. Nothing here branches on a byte or reads at a place that a byte gives: the lengths and the numbers alone are looked at.

#![tactic(auto)]

mod salted;

ghost use Rattle.std.specs.Prelude.{◌≡◌, ◌∷◌, ◌++◌, ◌+◌, ◌/◌, ◌%◌, ◌≤◌, length, drop};
ghost use Rattle.memory.specs.Lists.{put};
ghost use Rattle.sponge.specs.Sponge.{shake256};
ghost use Rattle.sponge.specs.Steps.{fresh, absorbed};
ghost use Rattle.hashes.specs.Hashes.{enc16, commit_fields, child_fields, tape_fields, first_hash, second_hash};

pub use salted::Salted;
use sponge::Sponge;

// The bytes that the uses begin with.
const COMMITMENT: u8 = 0;

const FIRST_HASH: u8 = 1;

const SECOND_HASH: u8 = 2;

const CHILD_SEEDS: u8 = 3;

const TAPE: u8 = 4;

// Room for the fields of any use that is short: one block of the sponge.
const BLOCK: usize = 136;

impl Salted<'_> {
    // Commit: fills `out` with the commitment of party i to its seed.
    pub fn commit(self, i: usize, seed: &[u8], out: &mut [u8])
        requires { length seed.now ≤ 32 }
        ensures { out.new ≡ shake256 (commit_fields self.entry.salt.now self.entry.e i seed.now) (length out.old) }
    {
        self.of_party(COMMITMENT, i, seed, out);
    }

    // ChildSeeds: fills `out` with the seeds below the parent at level k, position j.
    pub fn children(self, k: usize, j: usize, seed: &[u8], out: &mut [u8])
        requires { length seed.now ≤ 32 }
        ensures { out.new ≡ shake256 (child_fields self.entry.salt.now self.entry.e k j seed.now) (length out.old) }
    {
        let e = enc16(self.e);
        let k = enc16(k);
        let j = enc16(j);
        let numbers = [e[0], e[1], k[0], k[1], j[0], j[1]];
        fields(CHILD_SEEDS, self.salt, &numbers, seed, out);
    }

    // ExpandTape: fills `out` with the start of the tape of party i with this seed.
    pub fn tape(self, i: usize, seed: &[u8], out: &mut [u8])
        requires { length seed.now ≤ 32 }
        ensures { out.new ≡ shake256 (tape_fields self.entry.salt.now self.entry.e i seed.now) (length out.old) }
    {
        self.of_party(TAPE, i, seed, out);
    }

    // Fills `out` with the hash of party i and its seed in the use that begins with `byte`.
    fn of_party(self, byte: u8, i: usize, seed: &[u8], out: &mut [u8])
        requires { length seed.now ≤ 32 }
        ensures { out.new ≡ shake256 (byte ∷ (self.entry.salt.now ++ (enc16 self.entry.e ++ (enc16 i ++ seed.now)))) (length out.old) }
    {
        let e = enc16(self.e);
        let i = enc16(i);
        let numbers = [e[0], e[1], i[0], i[1]];
        fields(byte, self.salt, &numbers, seed, out);
    }
}

// H1 as it begins: the message and what the parties committed to are still to be absorbed.
pub fn first(salt: &[u8]) -> Sponge
    ensures { result ≡ absorbed fresh (first_hash ∷ salt.now) }
{
    begin(FIRST_HASH, salt)
}

// H2 as it begins: what the parties answered is still to be absorbed.
pub fn second(salt: &[u8], h1: &[u8]) -> Sponge
    ensures { result ≡ absorbed fresh (second_hash ∷ (salt.now ++ h1.now)) }
{
    begin(SECOND_HASH, salt).absorb(h1)
}

// A long hash as it begins, with the byte of its use and the salt.
fn begin(byte: u8, salt: &[u8]) -> Sponge
    ensures { result ≡ absorbed fresh (byte ∷ salt.now) }
{
    Sponge::new().absorb(&[byte]).absorb(salt)
}

// Fills `out` with the hash of the fields of a short use, which lie in one block.
fn fields(byte: u8, salt: &[u8], numbers: &[u8], seed: &[u8], out: &mut [u8])
    requires { (length salt.now ≤ 64) × (length numbers.now ≤ 6) × (length seed.now ≤ 32) }
    ensures { out.new ≡ shake256 (byte ∷ (salt.now ++ (numbers.now ++ seed.now))) (length out.old) }
{
    let mut block = [0u8; BLOCK];
    let n = assemble(byte, salt, numbers, seed, &mut block);
    sponge::short(&block, n, out);
}

// Writes the fields one after another over the start of `block`, and gives how many bytes they are.
fn assemble(byte: u8, salt: &[u8], numbers: &[u8], seed: &[u8], block: &mut [u8]) -> usize
    requires { 1 + length salt.now + length numbers.now + length seed.now ≤ length block.old }
    ensures { (result ≡ 1 + length salt.now + length numbers.now + length seed.now) × (block.new ≡ (byte ∷ (salt.now ++ (numbers.now ++ seed.now))) ++ drop result block.old) }
{
    block[0] = byte;
    let a = section(salt, 1, block);
    let b = section(numbers, a, block);
    section(seed, b, block)
}

// Puts a field into `block` from the place `at` on, and gives the place behind it.
fn section(field: &[u8], at: usize, block: &mut [u8]) -> usize
    requires { at + length field.now ≤ length block.old }
    ensures { (result ≡ at + length field.now) × (block.new ≡ put block.old at field.now) }
{
    let e = at + field.len();
    memory::copy(field, &mut block[at..e]);
    e
}

// The two bytes of a number modulo 65536, the least significant first.
fn enc16(x: usize) -> [u8; 2]
    ensures { result ≡ enc16 x }
{
    ((x % 65536) as u16).to_le_bytes()
}
