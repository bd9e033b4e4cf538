// What a repetition of verifying gives to the first hash (algorithm 13 of the submission, lines 10, 12 and 32): the other parties' seeds are rebuilt from the path, and the commitments of all parties and
// the corrections absorbed. Everything here is public.
ghost use Rattle.std.specs.Prelude.{◌≡◌, ◌*◌, ◌+◌, ◌≤◌, length, take, drop};
ghost use mathlib.Core.List.{flatten};
ghost use Rattle.memory.specs.Sections.{pieces};
ghost use Rattle.sponge.specs.Steps.{absorbed};
ghost use Rattle.sets.specs.Sets.{S, N};
ghost use Rattle.hashes.specs.Hashes.{commit};
ghost use Rattle.parties.specs.Parties.{parties};
ghost use Rattle.parties.specs.Repetition.{given_at};
ghost use Rattle.biscuit.specs.Signature.{shown_at, opening_of};
ghost use Rattle.biscuit.specs.Room.{groups, room_end};
ghost use Rattle.turns.specs.Turns.{key_of, signature_of, leaves_part, leaves, rebuilt, first_of};

use crate::claim::{Claim, Repetition};
use crate::opened::Opened;
use hashes::Salted;
use reps::LEAVES;
use sponge::Sponge;
use views::{Given, Leaves};

// Line 10: the seeds of the other parties go to the leaves, and zeros to the hidden party's place.
#[tactic(auto, using(biscuit::proofs::Room::mapped))]
pub fn rebuild(opened: Opened<'_>, work: &mut [u8])
    requires { room_end opened.repetition.claim.p ≤ length work.old }
    ensures { let claim = opened.entry.repetition.claim in work.new ≡ rebuilt claim.p (key_of claim) (signature_of claim) opened.entry.repetition.e work.old }
{
    let repetition = opened.repetition;
    let p = repetition.claim.p;
    let layout = biscuit::layout_of(p);
    let leaves = &mut work[layout.leaves..layout.room];
    let path = path(repetition);
    tree::rebuild(
        salted(repetition),
        path,
        p.l,
        opened.party,
        p.bits / 8,
        leaves,
    );
}

// Line 32: the commitments of all parties, the hidden one's from the signature, and the corrections.
pub fn absorb_first(hash: Sponge, opened: Opened<'_>, work: &[u8]) -> Sponge
    requires { let claim = opened.repetition.claim in (room_end claim.p ≤ length work.now) × (leaves_part claim.p work.now ≡ leaves claim.p (key_of claim) (signature_of claim) opened.repetition.e) }
    ensures { let claim = opened.entry.repetition.claim in result ≡ absorbed hash (first_of claim.p (key_of claim) (signature_of claim) opened.entry.repetition.e) }
{
    let p = opened.repetition.claim.p;
    let a = p.n;
    let b = a + p.m;
    let next = absorb_commitments(hash, opened, work);
    views::absorb_corrections(next, &opened.values[..a], &opened.values[a..b])
}

// The leaves of a repetition of sixteen parties, copied out of work.
pub fn keep_leaves<'a>(claim: Claim<'_>, work: &[u8], room: &'a mut [u8; LEAVES]) -> &'a [u8]
    requires { (groups claim.p ≡ 1) × (room_end claim.p ≤ length work.now) }
    ensures { result.now ≡ leaves_part claim.entry.p work.now }
{
    let leaves = leaves_in(claim, work);
    let kept = &mut room[..leaves.len()];
    kept.copy_from_slice(leaves);
    kept
}

// The leaves of a repetition, where they lie in work.
#[tactic(auto, using(biscuit::proofs::Room::mapped))]
pub fn leaves_in<'a>(claim: Claim<'_>, work: &'a [u8]) -> &'a [u8]
    requires { room_end claim.p ≤ length work.now }
    ensures { result.now ≡ leaves_part claim.entry.p work.now }
{
    let layout = biscuit::layout_of(claim.p);
    &work[layout.leaves..layout.room]
}

// The salt of a signature.
#[tactic(auto, unfolding(sets::specs::Sets::S, biscuit::specs::Signature::extracted))]
pub fn salt<'a>(claim: Claim<'a>) -> &'a [u8]
    ensures is { result.now ≡ (signature_of claim.entry).salt }
    ensures short { length result.now ≤ 64 }
{
    &claim.signature[..2 * (claim.p.bits / 8)]
}

// Line 12: the commitments of all parties.
fn absorb_commitments(hash: Sponge, opened: Opened<'_>, work: &[u8]) -> Sponge
    requires { room_end opened.repetition.claim.p ≤ length work.now }
    ensures { let claim = opened.entry.repetition.claim in let e = opened.entry.repetition.e in result ≡ absorbed hash (flatten (parties (given_at (opening_of claim.p claim.signature.now e).commitment opened.entry.party (commit (S claim.p) (signature_of claim).salt e)) (pieces (S claim.p) (N claim.p) (leaves_part claim.p work.now)))) }
{
    let repetition = opened.repetition;
    let claim = repetition.claim;
    let all = Leaves {
        of: salted(repetition),
        seeds: leaves_in(claim, work),
        size: claim.p.bits / 8,
        count: parties::count(claim.p),
    };
    let given = Given {
        party: opened.party,
        commitment: commitment(repetition),
    };
    all.commit_all(hash, Some(given))
}

// The salt with the number of a repetition.
fn salted<'a>(repetition: Repetition<'a>) -> Salted<'a>
    ensures salt { result.salt.now ≡ (signature_of repetition.entry.claim).salt }
    ensures number { result.e ≡ repetition.entry.e }
{
    Salted {
        salt: salt(repetition.claim),
        e: repetition.e,
    }
}

// The path that a signature shows of a repetition.
fn path<'a>(repetition: Repetition<'a>) -> &'a [u8]
    ensures { let claim = repetition.entry.claim in result.now ≡ take (claim.p.l * S claim.p) (drop (shown_at claim.p repetition.entry.e) claim.signature.now) }
{
    let p = repetition.claim.p;
    let at = shown_at(repetition);
    &repetition.claim.signature[at..at + p.l * (p.bits / 8)]
}

// The commitment of the party that a repetition hides.
fn commitment<'a>(repetition: Repetition<'a>) -> &'a [u8]
    ensures { let claim = repetition.entry.claim in result.now ≡ (opening_of claim.p claim.signature.now repetition.entry.e).commitment }
{
    let p = repetition.claim.p;
    let s = p.bits / 8;
    let at = shown_at(repetition) + p.l * s;
    &repetition.claim.signature[at..at + 2 * s]
}

// Where path and hidden commitment of a repetition begin in a signature.
#[tactic(auto, using(crate::proofs::Sizes::shown_bounded), unfolding(sets::specs::Sets::S))]
fn shown_at(repetition: Repetition<'_>) -> usize
    ensures { result ≡ shown_at repetition.entry.claim.p repetition.entry.e }
{
    let p = repetition.claim.p;
    let s = p.bits / 8;
    6 * s + (repetition.e - 1) * (p.l * s + 2 * s)
}
