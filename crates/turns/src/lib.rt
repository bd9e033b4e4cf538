// One repetition of verifying, or two side by side (algorithm 13 of the submission, lines 8 to 34): the other parties' seeds are rebuilt, commitments and corrections go
// to the first hash, answers to the second. Everything here is public.

#![tactic(auto)]

mod claim;
mod first;
mod opened;
mod second;
mod values;

ghost use Rattle.std.specs.Prelude.{◌≡◌, ◌+◌, ◌≤◌, length};
ghost use Rattle.biscuit.specs.Room.{groups, room_end};
ghost use Rattle.turns.specs.Turns.{key_of, signature_of, Expanded, TurnLeft, rebuilt, TurnHashed, TwoHashed};

use biscuit::VALUES;
pub use claim::{Claim, Repetition};
use first::{absorb_first, keep_leaves, rebuild};
use opened::open;
use reps::LEAVES;
use second::{absorb_second, absorb_two};
use sponge::Sponge;

// Stays: `room_end p ≤ length work` is a clause of each step, since work is lent to be written and then read again: a struct that holds it as `&mut` would be lent anew for each step, and each contract
// would speak of the list behind it before and after, so the new form is no plainer.

// The two hashes, as far as they have absorbed.
#[derive(Clone, Copy)]
pub struct Both {
    pub first: Sponge,
    pub second: Sponge,
}

// Lines 8 to 34: what a repetition gives to the two hashes is absorbed. Its leaves, y and z·ε + c are left in work.
pub fn turn(both: Both, repetition: Repetition<'_>, work: &mut [u8]) -> Both
    requires { let claim = repetition.claim in (room_end claim.p ≤ length work.old) × (Expanded claim.p (key_of claim) (signature_of claim) claim.parties.now work.old) }
    ensures turned { let claim = repetition.entry.claim in TurnHashed claim.p (key_of claim) (signature_of claim) repetition.entry.e both result }
    ensures left { let claim = repetition.entry.claim in TurnLeft claim.p (key_of claim) (signature_of claim) repetition.entry.e work.old work.new }
{
    let mut values = [0u8; VALUES];
    let opened = open(repetition, work, &mut values);
    rebuild(opened, work);
    let first = absorb_first(both.first, opened, work);
    let second = absorb_second(both.second, opened, work);
    Both { first, second }
}

// Lines 8 to 34 for a repetition of sixteen parties and the next, with their answers worked out side by side. The leaves of the next are left in work.
pub fn turn_two(both: Both, repetition: Repetition<'_>, work: &mut [u8]) -> Both
    requires { let claim = repetition.claim in (groups claim.p ≡ 1) × (repetition.e + 1 ≤ claim.p.tau) × (room_end claim.p ≤ length work.old) × (Expanded claim.p (key_of claim) (signature_of claim) claim.parties.now work.old) }
    ensures turned { let claim = repetition.entry.claim in TwoHashed claim.p (key_of claim) (signature_of claim) repetition.entry.e both result }
    ensures left { let claim = repetition.entry.claim in work.new ≡ rebuilt claim.p (key_of claim) (signature_of claim) (repetition.entry.e + 1) work.old }
{
    let next = Repetition {
        claim: repetition.claim,
        e: repetition.e + 1,
    };
    let mut values = [0u8; VALUES];
    let mut more = [0u8; VALUES];
    let mut seeds = [0u8; LEAVES];
    let one = open(repetition, work, &mut values);
    let two = open(next, work, &mut more);
    rebuild(one, work);
    let first = absorb_first(both.first, one, work);
    let kept = keep_leaves(repetition.claim, work, &mut seeds);
    rebuild(two, work);
    let first = absorb_first(first, two, work);
    let second = absorb_two(both.second, one, two, kept, work);
    Both { first, second }
}
