// Verifying, algorithm 13 of the submission: the circuit, the challenges and the hidden parties are expanded once; then the repetitions go into the two hashes, two at a
// time where a repetition has sixteen parties; both hashes are compared with the signature's. Everything here is public.

#![tactic(auto)]

ghost use Rattle.std.specs.Prelude.{◌≡◌, List, ℕ, ◌*◌, ◌≤◌, length};
ghost use Rattle.memory.specs.Lists.{same};
ghost use Rattle.sponge.specs.Steps.{finished, given};
ghost use Rattle.sets.specs.Sets.{public_key_length, signature_length};
ghost use Rattle.biscuit.specs.Keys.{public_key_of};
ghost use Rattle.biscuit.specs.Signature.{extracted};
ghost use Rattle.biscuit.specs.Verify as verify;
ghost use Rattle.refusals.specs.Refusals.{work_length};
ghost use Rattle.biscuit.specs.Room.{Fits, room_end};
ghost use Rattle.turns.specs.Turns.{key_of, signature_of, Expanded};
ghost use Rattle.verifying.specs.Hashed.{pair_count, Hashed};

use sets::{LONGEST_HASH, MOST_REPETITIONS, Params};
use sponge::Sponge;
use turns::{Both, Claim, Repetition};

// Algorithm 13: whether the signature is accepted. What stands in work afterwards is of no use to anybody.
pub fn accepts(p: Params, pk: &[u8], message: &[u8], signature: &[u8], work: &mut [u8]) -> bool
    requires { (Fits p) × (length pk.now ≡ public_key_length p) × (length signature.now ≡ signature_length p) × (length work.old ≡ work_length) }
    ensures { result ≡ verify.accepts p pk.now message.now signature.now }
{
    let mut room = [0u8; MOST_REPETITIONS];
    let parties = &mut room[..p.tau];
    expand(p, pk, signature, parties, work);
    let claim = Claim {
        p,
        pk,
        signature,
        parties,
    };
    let both = repetitions(claim, message, work);
    agree(claim, both)
}

// Lines 3, 5 and 6: the circuit and the challenges of all repetitions go to work, the hidden parties to their own room.
#[tactic(auto, using(biscuit::proofs::Room::mapped))]
fn expand(p: Params, pk: &[u8], signature: &[u8], parties: &mut [u8], work: &mut [u8])
    requires { (Fits p) × (length pk.now ≡ public_key_length p) × (length signature.now ≡ signature_length p) × (length parties.old ≡ p.tau) × (room_end p ≤ length work.old) }
    ensures { Expanded p (public_key_of p pk.now) (extracted p signature.now) parties.new work.new }
{
    let s = p.bits / 8;
    let a = 2 * s;
    let b = a + a;
    let c = b + a;
    let layout = biscuit::layout_of(p);
    forms::tape_bytes(&pk[..s], &mut work[..layout.leaves]);
    forms::tape_bytes(&signature[a..b], &mut work[layout.challenges..layout.end]);
    forms::tape_bytes(&signature[b..c], parties);
}

// Lines 7 to 35: both hashes with all repetitions absorbed.
fn repetitions(claim: Claim<'_>, message: &[u8], work: &mut [u8]) -> Both
    requires { (room_end claim.p ≤ length work.old) × (Expanded claim.p (key_of claim) (signature_of claim) claim.parties.now work.old) }
    ensures { let claim = claim.entry in Hashed claim.p (key_of claim) (signature_of claim) message.now claim.p.tau result }
{
    let mut both = pairs(claim, message, work);
    for e in 2 * pair_count(claim)..claim.p.tau {
        both = turns::turn(both, Repetition { claim, e: e + 1 }, work);
    }
    both
}

// The same, as far as the repetitions are taken two at a time.
fn pairs(claim: Claim<'_>, message: &[u8], work: &mut [u8]) -> Both
    requires { (room_end claim.p ≤ length work.old) × (Expanded claim.p (key_of claim) (signature_of claim) claim.parties.now work.old) }
    ensures hashed { let claim = claim.entry in Hashed claim.p (key_of claim) (signature_of claim) message.now (2 * pair_count claim.p) result }
    ensures kept { let claim = claim.entry in Expanded claim.p (key_of claim) (signature_of claim) claim.parties.now work.new }
{
    let mut both = begin(claim, message);
    for i in 0..pair_count(claim) {
        both = turns::turn_two(
            both,
            Repetition {
                claim,
                e: 2 * i + 1,
            },
            work,
        );
    }
    both
}

// How many pairs of repetitions are taken side by side: all where a repetition has sixteen parties, none otherwise.
fn pair_count(claim: Claim<'_>) -> usize
    ensures { result ≡ pair_count claim.entry.p }
{
    if biscuit::groups_of(claim.p) == 1 {
        claim.p.tau / 2
    } else {
        0
    }
}

// Lines 33 and 35 as they begin: the salt and the message, and the salt and the signature's h1.
#[tactic(auto, using(turns::proofs::Sizes::head_fits), unfolding(sets::specs::Sets::S))]
fn begin(claim: Claim<'_>, message: &[u8]) -> Both
    ensures { let claim = claim.entry in Hashed claim.p (key_of claim) (signature_of claim) message.now 0 result }
{
    let a = 2 * (claim.p.bits / 8);
    let salt = &claim.signature[..a];
    let h1 = &claim.signature[a..a + a];
    Both {
        first: hashes::first(salt).absorb(message),
        second: hashes::second(salt, h1),
    }
}

// Line 36: whether both hashes are the signature's; both are compared, whatever the first says.
#[tactic(auto, using(turns::proofs::Sizes::head_fits), unfolding(sets::specs::Sets::S))]
fn agree(claim: Claim<'_>, both: Both) -> bool
    ensures { let claim = claim.entry in (message : List ℕ) → Hashed claim.p (key_of claim) (signature_of claim) message claim.p.tau both → result ≡ verify.valid claim.p (key_of claim) (signature_of claim) message }
{
    let a = 2 * (claim.p.bits / 8);
    let b = a + a;
    let c = b + a;
    let first = agrees(both.first, &claim.signature[a..b]);
    let second = agrees(both.second, &claim.signature[b..c]);
    first && second
}

// Whether a hash gives the wanted bytes.
fn agrees(hash: Sponge, wanted: &[u8]) -> bool
    requires { length wanted.now ≤ 64 }
    ensures { result ≡ same wanted.now (given (finished hash) (length wanted.now)) }
{
    let mut room = [0u8; LONGEST_HASH];
    let found = &mut room[..wanted.len()];
    hash.finish().squeeze(found);
    memory::equal(wanted, found)
}
