// What a repetition of verifying gives to the second hash (algorithm 13 of the submission, lines 12 to 34), or two of sixteen parties side by side: all α and all v, the hidden party's α from the signature
// and its v minus the sum of the others. Everything here is public.
ghost use Rattle.std.specs.Prelude.{◌≡◌, ◌+◌, ◌≤◌, length};
ghost use Rattle.sponge.specs.Steps.{absorbed};
ghost use Rattle.forms.specs.Room.{HoldsCircuit};
ghost use Rattle.biscuit.specs.Verify as verify;
ghost use Rattle.biscuit.specs.Room.{groups, room_end};
ghost use Rattle.reps.specs.Reps.{rep_of};
ghost use Rattle.turns.specs.Turns.{key_of, signature_of, circuit_part, leaves_part, Answered, leaves, second_of};

use crate::first::{leaves_in, salt};
use crate::opened::Opened;
use sponge::Sponge;

// Line 34, with circuit and leaves in work; y and z·ε + c are left in its room.
#[tactic(auto, using(biscuit::proofs::Room::mapped))]
pub fn absorb_second(hash: Sponge, opened: Opened<'_>, work: &mut [u8]) -> Sponge
    requires { let claim = opened.repetition.claim in (room_end claim.p ≤ length work.old) × (HoldsCircuit claim.p.n claim.p.m (verify.f claim.p (key_of claim)) (circuit_part claim.p work.old)) × (leaves_part claim.p work.old ≡ leaves claim.p (key_of claim) (signature_of claim) opened.repetition.e) }
    ensures answered { let claim = opened.entry.repetition.claim in result ≡ absorbed hash (second_of claim.p (key_of claim) (signature_of claim) opened.entry.repetition.e) }
    ensures left { let claim = opened.entry.repetition.claim in Answered claim.p (rep_of claim.p opened.entry.repetition.e opened.entry.party) (signature_of claim).salt opened.entry.values.now work.old work.new }
{
    let repetition = opened.repetition;
    let claim = repetition.claim;
    let layout = biscuit::layout_of(claim.p);
    let rep = reps::rep_of(claim.p, repetition.e, opened.party);
    answers::answers(
        hash,
        rep,
        salt(claim),
        opened.values,
        &mut work[..layout.roots],
    )
}

// Line 34 for two repetitions, from the leaves of the first that were kept and those of the second in work.
#[tactic(auto, using(biscuit::proofs::Room::mapped))]
pub fn absorb_two(
    hash: Sponge,
    one: Opened<'_>,
    two: Opened<'_>,
    seeds: &[u8],
    work: &[u8],
) -> Sponge
    requires { let claim = one.repetition.claim in (two.repetition.claim ≡ claim) × (groups claim.p ≡ 1) × (room_end claim.p ≤ length work.now) × (HoldsCircuit claim.p.n claim.p.m (verify.f claim.p (key_of claim)) (circuit_part claim.p work.now)) × (seeds.now ≡ leaves claim.p (key_of claim) (signature_of claim) one.repetition.e) × (leaves_part claim.p work.now ≡ leaves claim.p (key_of claim) (signature_of claim) two.repetition.e) }
    ensures { let claim = one.entry.repetition.claim in let second = second_of claim.p (key_of claim) (signature_of claim) in result ≡ absorbed (absorbed hash (second one.entry.repetition.e)) (second two.entry.repetition.e) }
{
    let claim = one.repetition.claim;
    let p = claim.p;
    let layout = biscuit::layout_of(p);
    let rep = reps::rep_of(p, one.repetition.e, one.party);
    let next = reps::rep_of(p, two.repetition.e, two.party);
    answers::two_repetitions(
        hash,
        rep,
        next,
        salt(claim),
        one.values,
        two.values,
        &work[..layout.leaves],
        seeds,
        leaves_in(claim, work),
    )
}
