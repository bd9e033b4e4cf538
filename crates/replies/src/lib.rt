// The loops of signing over all repetitions once the challenges are drawn, algorithm 12: phase 3, which answers for every party, and of phase 5 the α of the hidden parties.
// No secret picks a branch or an address; the numbers of the repetitions and of the hidden parties are public.

#![tactic(auto)]

mod hidden;
mod inputs;
mod repetition;

ghost use Rattle.std.specs.Prelude.{◌≡◌, ◌+◌, ◌*◌, ◌≤◌, length, take};
ghost use Rattle.field.specs.Packing.{Elements, packed_length};
ghost use Rattle.sponge.specs.Steps.{absorbed};
ghost use Rattle.forms.specs.Circuit.{Circuit};
ghost use Rattle.forms.specs.Room.{HoldsCircuit};
ghost use Rattle.vectors.specs.Elements.{elements_put};
ghost use Rattle.refusals.specs.Refusals.{work_length};
ghost use Rattle.biscuit.specs.Signature.{repeated, vector_count};
ghost use Rattle.biscuit.specs.Room.{leaves_at};
ghost use Rattle.passes.specs.Passes.{Kept};
ghost use Rattle.replies.specs.Replies.{answers_of, alpha_shown};

use passes::{Basis, Turn};
use sponge::Sponge;

// Stays: that the secret's bytes are elements is a clause of phase 3, and no field of `Basis`: phases 1 and 5 take any bytes there, and may not ask more of their callers.
// Stays: the lengths of packing and work are clauses of each function that is lent them: a struct around a `&mut` slice, which has to be taken apart and built again at each call, is no plainer.

// Phase 3, lines 25 to 34: the second hash takes every α and then every v of each repetition.
pub fn answer_pass(hash: Sponge, basis: Basis<'_>, packing: &[u8], work: &mut [u8]) -> Sponge
    requires { (Elements basis.secret.now) × (length packing.now ≡ packed_length (vector_count basis.p)) × (length work.old ≡ work_length) }
    ensures absorbs { let b = basis.entry in (f : Circuit) → HoldsCircuit b.p.n b.p.m f (take (leaves_at b.p) work.old) → result ≡ absorbed hash (repeated b.p.tau (λ e. answers_of b.p f e b.salt.now b.secret.now packing.now work.old)) }
    ensures keeps { Kept basis.entry.p work.old work.new }
{
    let tau = basis.p.tau;
    let mut next = hash;
    for pair in 0..tau / 2 {
        let e = 2 * pair + 1;
        next = repetition::answer_pair(next, Turn { basis, e }, packing, work);
    }
    if tau % 2 == 1 {
        return repetition::answer_turn(next, Turn { basis, e: tau }, packing, work);
    }
    next
}

// Of phase 5, lines 38 and 40: the α of the hidden party of each repetition, written behind the corrections. The part of work that had the roots has the hidden parties' leaves.
pub fn alpha_pass(basis: Basis<'_>, hidden: &[u8], packing: &mut [u8], work: &[u8])
    requires { (basis.p.tau ≤ length hidden.now) × (length packing.old ≡ packed_length (vector_count basis.p)) × (length work.now ≡ work_length) }
    ensures { let b = basis.entry in (f : Circuit) → HoldsCircuit b.p.n b.p.m f (take (leaves_at b.p) work.now) → packing.new ≡ elements_put (repeated b.p.tau (λ e. alpha_shown b.p f e b.salt.now b.secret.now hidden.now packing.old work.now)) (b.p.tau * (b.p.n + b.p.m)) packing.old }
{
    for done in 0..basis.p.tau {
        hidden::alpha_turn(Turn { basis, e: done + 1 }, hidden, packing, work);
    }
}
