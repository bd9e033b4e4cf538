// SHAKE256 of FIPS 202 as a state that each step takes by value and hands back: bytes are absorbed into a `Sponge`, `finish` makes a `Tape`
// of it, and bytes are squeezed out of the tape. Nothing here branches on a byte or reads at a place that a byte gives.

#![tactic(auto)]

mod part;

ghost use Rattle.std.specs.Prelude.{◌≡◌, ◌-◌, ◌<◌, length, take, drop, replicate};
ghost use Rattle.keccak.specs.Keccak.{keccak_f};
ghost use Rattle.sponge.specs.Sponge.{rate, shake256};
ghost use Rattle.sponge.specs.Steps.{sponge, tape, fresh, absorbed, finished, given, moved, turned, ready};

use part::RATE;

// What was absorbed: the state, and the place of the next byte in the block.
#[derive(Clone, Copy)]
pub struct Sponge {
    pub lanes: [u64; 25],
    pub at: usize,
}

// What is to be given: the state, and the place of the next byte in the block.
#[derive(Clone, Copy)]
pub struct Tape {
    pub lanes: [u64; 25],
    pub at: usize,
}

impl Sponge {
    // The sponge that has absorbed nothing.
    pub fn new() -> Sponge
        ensures { result ≡ fresh }
    {
        Sponge {
            lanes: [0u64; 25],
            at: 0,
        }
    }

    // The sponge after these bytes more.
    pub fn absorb(self, bytes: &[u8]) -> Sponge
        ensures { result ≡ absorbed self bytes.now }
    {
        let mut lanes = self.lanes;
        let mut at = self.at % RATE;
        let mut rest = bytes;
        while !rest.is_empty() {
            let n = memory::lesser(RATE - at, rest.len());
            let (part, later) = rest.split_at(n);
            part::xor(&mut lanes, at, part);
            at = turn(&mut lanes, at + n);
            rest = later;
        }
        Sponge { lanes, at }
    }

    // The tape of what was absorbed: the suffix and the padding close the last block.
    pub fn finish(self) -> Tape
        ensures { result ≡ finished self }
    {
        let mut lanes = self.lanes;
        part::xor_byte(&mut lanes, self.at % RATE, 0x1f);
        part::xor_byte(&mut lanes, RATE - 1, 0x80);
        Tape {
            lanes: keccak::permute(lanes),
            at: 0,
        }
    }
}

impl Tape {
    // Fills `out` with the next bytes, and gives the tape behind them.
    pub fn squeeze(self, out: &mut [u8]) -> Tape
        ensures { (out.new ≡ given self (length out.old)) × (result ≡ moved self (length out.old)) }
    {
        let mut lanes = self.lanes;
        let mut at = self.at;
        let mut i = 0;
        // Stays: going down `out` by `split_at_mut`, as `absorb` does, was tried, and the proof did not close: nothing is known of what `out` then ends as.
        while i < out.len() {
            at = turn(&mut lanes, at);
            let n = memory::lesser(RATE - at, out.len() - i);
            part::give(&lanes, at, &mut out[i..i + n]);
            at += n;
            i += n;
        }
        Tape { lanes, at }
    }
}

// SHAKE256 of the message.
pub fn shake256(message: &[u8], out: &mut [u8])
    ensures { out.new ≡ shake256 message.now (length out.old) }
{
    Sponge::new().absorb(message).finish().squeeze(out);
}

// SHAKE256 of the first n bytes of a block whose other bytes are 0, in one go: its state is never handed on.
// Stays: the length beside the block; taking the message alone was tried, and a hash then takes 1 to 2 hundredths longer, since it no longer goes in by whole words.
pub fn short(block: &[u8], n: usize, out: &mut [u8])
    requires { (n < rate) × (length block.now ≡ rate) × (drop n block.now ≡ replicate (rate - n) 0) }
    ensures { out.new ≡ shake256 (take n block.now) (length out.old) }
{
    let mut lanes = [0u64; 25];
    part::xor_words(&mut lanes, 0, block);
    part::xor_byte(&mut lanes, n, 0x1f);
    part::xor_byte(&mut lanes, RATE - 1, 0x80);
    permute(&mut lanes);
    if out.len() <= RATE {
        part::give(&lanes, 0, out);
        return;
    }
    let tape = Tape { lanes, at: 0 };
    tape.squeeze(out);
}

// The place in the block from this one on: at the block's end the state is permuted, and the next block begins.
fn turn(lanes: &mut [u64; 25], at: usize) -> usize
    ensures sponge { sponge lanes.new result ≡ turned lanes.old at }
    ensures tape { tape lanes.new result ≡ ready (tape lanes.old at) }
{
    if at < RATE {
        return at;
    }
    permute(lanes);
    0
}

// The permutation, in place.
fn permute(lanes: &mut [u64; 25])
    ensures { lanes.new ≡ keccak_f lanes.old }
{
    *lanes = keccak::permute(*lanes);
}
