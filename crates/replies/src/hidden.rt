// Of phase 5 the α of one hidden party, algorithm 12, lines 38 and 40: worked out from its leaf and written behind the corrections.
// No secret picks a branch or an address; the number of the hidden party is public.
ghost use Rattle.std.specs.Prelude.{◌≡◌, ◌≤◌, length, take};
ghost use Rattle.field.specs.Packing.{packed_length};
ghost use Rattle.forms.specs.Circuit.{Circuit};
ghost use Rattle.forms.specs.Room.{HoldsCircuit};
ghost use Rattle.vectors.specs.Elements.{elements_put};
ghost use Rattle.refusals.specs.Refusals.{work_length};
ghost use Rattle.biscuit.specs.Signature.{vector_count};
ghost use Rattle.biscuit.specs.Room.{leaves_at};
ghost use Rattle.replies.specs.Replies.{alpha_shown, alpha_at};

use crate::inputs::read_values;
use biscuit::VALUES;
use passes::Turn;
use sets::MOST_EQUATIONS;

// The α of the hidden party of a repetition, whose leaf stands where the root was: written to its place in the packing.
pub fn alpha_turn(turn: Turn<'_>, hidden: &[u8], packing: &mut [u8], work: &[u8])
    requires { (turn.basis.p.tau ≤ length hidden.now) × (length packing.old ≡ packed_length (vector_count turn.basis.p)) × (length work.now ≡ work_length) }
    ensures { let b = turn.entry.basis in (f : Circuit) → HoldsCircuit b.p.n b.p.m f (take (leaves_at b.p) work.now) → packing.new ≡ elements_put (alpha_shown b.p f turn.entry.e b.salt.now b.secret.now hidden.now packing.old work.now) (alpha_at b.p turn.entry.e) packing.old }
{
    let p = turn.basis.p;
    let rep = reps::rep_of(p, turn.e, 0);
    let i = forms::hidden_party(hidden, p.l, turn.e);
    let map = biscuit::layout_of(p);
    let s = p.bits / 8;
    let at = map.roots + (turn.e - 1) * s;
    let mut values = [0u8; VALUES];
    let mut alpha = [0u8; MOST_EQUATIONS];
    let values = &mut values[0..p.n + 4 * p.m];
    let alpha = &mut alpha[0..p.m];
    read_values(turn, packing, work, values);
    single::alpha_of(
        rep,
        turn.basis.salt,
        &work[0..map.leaves],
        values,
        i,
        &work[at..at + s],
        alpha,
    );
    let behind = p.tau * (p.n + p.m);
    vectors::write_elements(alpha, behind + (turn.e - 1) * p.m, packing);
}
