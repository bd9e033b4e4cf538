// Of phase 3 one repetition, algorithm 12, lines 26 to 34, or two of them side by side: the leaves are planted again, the values are read, and the second hash takes every α and then every v.
// No secret picks a branch or an address.
ghost use Rattle.std.specs.Prelude.{◌≡◌, ◌+◌, ◌*◌, ◌<◌, length, take, drop};
ghost use Rattle.field.specs.Packing.{Elements, packed_length};
ghost use Rattle.sponge.specs.Steps.{absorbed};
ghost use Rattle.forms.specs.Circuit.{Circuit};
ghost use Rattle.forms.specs.Room.{HoldsCircuit};
ghost use Rattle.refusals.specs.Refusals.{work_length};
ghost use Rattle.biscuit.specs.Signature.{vector_count};
ghost use Rattle.biscuit.specs.Room.{groups, leaves_at};
ghost use Rattle.passes.specs.Passes.{Kept};
ghost use Rattle.replies.specs.Replies.{answers_of};

use crate::inputs::read_values;
use biscuit::VALUES;
use hashes::Salted;
use passes::Turn;
use reps::LEAVES;
use sponge::Sponge;

// Lines 26 to 34 of a repetition and the next: side by side where a repetition is one group of parties, else one after the other.
pub fn answer_pair(hash: Sponge, turn: Turn<'_>, packing: &[u8], work: &mut [u8]) -> Sponge
    requires { (turn.e < turn.basis.p.tau) × (Elements turn.basis.secret.now) × (length packing.now ≡ packed_length (vector_count turn.basis.p)) × (length work.old ≡ work_length) }
    ensures absorbs { let b = turn.entry.basis in (f : Circuit) → HoldsCircuit b.p.n b.p.m f (take (leaves_at b.p) work.old) → result ≡ absorbed (absorbed hash (answers_of b.p f turn.entry.e b.salt.now b.secret.now packing.now work.old)) (answers_of b.p f (turn.entry.e + 1) b.salt.now b.secret.now packing.now work.old) }
    ensures keeps { Kept turn.entry.basis.p work.old work.new }
{
    if biscuit::groups_of(turn.basis.p) == 1 {
        return answer_two(hash, turn, packing, work);
    }
    let next = Turn {
        basis: turn.basis,
        e: turn.e + 1,
    };
    let first = answer_turn(hash, turn, packing, work);
    answer_turn(first, next, packing, work)
}

// Both side by side, for sixteen parties each: the leaves of the first are copied before those of the second take their place in work.
fn answer_two(hash: Sponge, turn: Turn<'_>, packing: &[u8], work: &mut [u8]) -> Sponge
    requires { (groups turn.basis.p ≡ 1) × (turn.e < turn.basis.p.tau) × (Elements turn.basis.secret.now) × (length packing.now ≡ packed_length (vector_count turn.basis.p)) × (length work.old ≡ work_length) }
    ensures absorbs { let b = turn.entry.basis in (f : Circuit) → HoldsCircuit b.p.n b.p.m f (take (leaves_at b.p) work.old) → result ≡ absorbed (absorbed hash (answers_of b.p f turn.entry.e b.salt.now b.secret.now packing.now work.old)) (answers_of b.p f (turn.entry.e + 1) b.salt.now b.secret.now packing.now work.old) }
    ensures keeps { Kept turn.entry.basis.p work.old work.new }
{
    let p = turn.basis.p;
    let next = Turn {
        basis: turn.basis,
        e: turn.e + 1,
    };
    let map = biscuit::layout_of(p);
    let rep = reps::rep_of(p, turn.e, 0);
    let other = reps::rep_of(p, turn.e + 1, 0);
    let size = p.n + 4 * p.m;
    let mut values = [0u8; VALUES];
    let mut more = [0u8; VALUES];
    let mut leaves = [0u8; LEAVES];
    let values = &mut values[0..size];
    let more = &mut more[0..size];
    let leaves = &mut leaves[0..16 * (p.bits / 8)];
    let salt = turn.basis.salt;
    let first = Salted { salt, e: turn.e };
    let second = Salted { salt, e: next.e };
    read_values(turn, packing, work, values);
    read_values(next, packing, work, more);
    passes::plant(p, first, work);
    leaves.copy_from_slice(&work[map.leaves..map.room]);
    passes::plant(p, second, work);
    answers::two_repetitions(
        hash,
        rep,
        other,
        salt,
        values,
        more,
        &work[0..map.leaves],
        leaves,
        &work[map.leaves..map.room],
    )
}

// Lines 26 to 34 of a repetition.
pub fn answer_turn(hash: Sponge, turn: Turn<'_>, packing: &[u8], work: &mut [u8]) -> Sponge
    requires { (Elements turn.basis.secret.now) × (length packing.now ≡ packed_length (vector_count turn.basis.p)) × (length work.old ≡ work_length) }
    ensures absorbs { let b = turn.entry.basis in (f : Circuit) → HoldsCircuit b.p.n b.p.m f (take (leaves_at b.p) work.old) → result ≡ absorbed hash (answers_of b.p f turn.entry.e b.salt.now b.secret.now packing.now work.old) }
    ensures keeps { Kept turn.entry.basis.p work.old work.new }
{
    let p = turn.basis.p;
    let map = biscuit::layout_of(p);
    let rep = reps::rep_of(p, turn.e, 0);
    let mut values = [0u8; VALUES];
    let values = &mut values[0..p.n + 4 * p.m];
    let of = Salted {
        salt: turn.basis.salt,
        e: turn.e,
    };
    passes::plant(p, of, work);
    read_values(turn, packing, work, values);
    answers::answers(hash, rep, turn.basis.salt, values, &mut work[0..map.roots])
}
