// A repetition with what lines 6 to 22 read of it, and the values that it is worked from.
ghost use Rattle.std.specs.Prelude.{◌≡◌, ◌≤◌, length};
ghost use Rattle.biscuit.specs.Verify as verify;
ghost use Rattle.biscuit.specs.Room.{room_end};
ghost use Rattle.turns.specs.Turns.{key_of, signature_of, values_of, Expanded};

use crate::claim::Repetition;
use crate::values::read_values;
use biscuit::VALUES;

// The party that the repetition hides, and Δs, Δc, the challenge, t and the hidden party's α, an element to a byte.
#[derive(Clone, Copy)]
pub struct Opened<'a> {
    pub repetition: Repetition<'a>,
    pub party: usize,
    pub values: &'a [u8],
    pub ghost hides: { party ≡ verify.hidden repetition.claim.p (key_of repetition.claim) (signature_of repetition.claim) repetition.e },
    pub ghost holds: { values.now ≡ values_of repetition.claim.p (key_of repetition.claim) (signature_of repetition.claim) repetition.e },
}

// The repetition, opened; its values are read into room.
pub fn open<'a>(repetition: Repetition<'a>, work: &[u8], room: &'a mut [u8; VALUES]) -> Opened<'a>
    requires { let claim = repetition.claim in (room_end claim.p ≤ length work.now) × (Expanded claim.p (key_of claim) (signature_of claim) claim.parties.now work.now) }
    ensures { result.repetition ≡ repetition.entry }
{
    let claim = repetition.claim;
    let p = claim.p;
    let n = p.n + 4 * p.m;
    let values = &mut room[..n];
    read_values(repetition, work, values);
    let party = forms::hidden_party(claim.parties, p.l, repetition.e);
    Opened {
        repetition,
        party,
        values,
    }
}
