// The values that a repetition is worked from, read from the public key, the signature and work.
ghost use Rattle.std.specs.Prelude.{◌≡◌, ◌++◌, ◌+◌, ◌*◌, ◌≤◌, length, drop};
ghost use Rattle.forms.specs.Room.{challenge_in};
ghost use Rattle.biscuit.specs.Signature.{opening_of, packing_at};
ghost use Rattle.biscuit.specs.Room.{room_end};
ghost use Rattle.turns.specs.Turns.{key_of, challenges_part};

use crate::claim::{Claim, Repetition};

// Δs, Δc, the challenge, t and the hidden party's α, an element to a byte.
pub fn read_values(repetition: Repetition<'_>, work: &[u8], values: &mut [u8])
    requires { (length values.old ≡ repetition.claim.p.n + 4 * repetition.claim.p.m) × (room_end repetition.claim.p ≤ length work.now) }
    ensures { let claim = repetition.entry.claim in let o = opening_of claim.p claim.signature.now repetition.entry.e in values.new ≡ (o.Δs ++ o.Δc) ++ (challenge_in claim.p.m (challenges_part claim.p work.now) repetition.entry.e ++ ((key_of claim).t ++ o.α)) }
{
    let p = repetition.claim.p;
    let (corrections, rest) = values.split_at_mut(p.n + p.m);
    let (challenge, rest) = rest.split_at_mut(p.m);
    let (target, alpha) = rest.split_at_mut(p.m);
    read_corrections(repetition, corrections);
    read_challenge(repetition, work, challenge);
    read_target(repetition.claim, target);
    read_alpha(repetition, alpha);
}

// Δs and Δc.
fn read_corrections(repetition: Repetition<'_>, out: &mut [u8])
    requires { length out.old ≡ repetition.claim.p.n + repetition.claim.p.m }
    ensures { let o = opening_of repetition.entry.claim.p repetition.entry.claim.signature.now repetition.entry.e in out.new ≡ o.Δs ++ o.Δc }
{
    let p = repetition.claim.p;
    let at = (repetition.e - 1) * (p.n + p.m);
    vectors::read_elements(packing(repetition.claim), at, out);
}

// The challenge.
#[tactic(auto, using(biscuit::proofs::Room::mapped))]
fn read_challenge(repetition: Repetition<'_>, work: &[u8], out: &mut [u8])
    requires { (room_end repetition.claim.p ≤ length work.now) × (length out.old ≡ repetition.claim.p.m) }
    ensures { let p = repetition.entry.claim.p in out.new ≡ challenge_in p.m (challenges_part p work.now) repetition.entry.e }
{
    let p = repetition.claim.p;
    let layout = biscuit::layout_of(p);
    let challenges = &work[layout.challenges..layout.end];
    let e = repetition.e;
    vectors::read_elements(challenges, (e - 1) * ((p.m + 1) / 2) * 2, out);
}

// t of the public key.
#[tactic(auto, using(crate::proofs::Sizes::seed_fits), unfolding(sets::specs::Sets::S))]
fn read_target(claim: Claim<'_>, out: &mut [u8])
    requires { length out.old ≡ claim.p.m }
    ensures { out.new ≡ (key_of claim.entry).t }
{
    vectors::read_elements(&claim.pk[claim.p.bits / 8..], 0, out);
}

// The hidden party's α.
fn read_alpha(repetition: Repetition<'_>, out: &mut [u8])
    requires { length out.old ≡ repetition.claim.p.m }
    ensures { out.new ≡ (opening_of repetition.entry.claim.p repetition.entry.claim.signature.now repetition.entry.e).α }
{
    let p = repetition.claim.p;
    let at = p.tau * (p.n + p.m) + (repetition.e - 1) * p.m;
    vectors::read_elements(packing(repetition.claim), at, out);
}

// The vectors that a signature packs.
#[tactic(auto, using(crate::proofs::Sizes::packing_fits))]
fn packing<'a>(claim: Claim<'a>) -> &'a [u8]
    ensures { result.now ≡ drop (packing_at claim.entry.p) claim.entry.signature.now }
{
    &claim.signature[biscuit::packing_at(claim.p)..]
}
