// What a repetition is answered from: its values one after another, an element to a byte.
// No secret picks a branch or an address.
ghost use Rattle.std.specs.Prelude.{◌≡◌, ◌+◌, ◌*◌, length, drop};
ghost use Rattle.field.specs.Packing.{packed_length};
ghost use Rattle.refusals.specs.Refusals.{work_length};
ghost use Rattle.biscuit.specs.Signature.{vector_count};
ghost use Rattle.biscuit.specs.Room.{challenges_at};
ghost use Rattle.replies.specs.Replies.{values_in};

use passes::Turn;

// The values of a repetition: Δs and Δc from the packing, the challenge from work, t from the secret, and zeros.
pub fn read_values(turn: Turn<'_>, packing: &[u8], work: &[u8], values: &mut [u8])
    requires { (length packing.now ≡ packed_length (vector_count turn.basis.p)) × (length work.now ≡ work_length) × (length values.old ≡ turn.basis.p.n + 4 * turn.basis.p.m) }
    ensures { let b = turn.entry.basis in values.new ≡ values_in b.p turn.entry.e b.secret.now packing.now (drop (challenges_at b.p) work.now) }
{
    let p = turn.basis.p;
    let map = biscuit::layout_of(p);
    let a = p.n + p.m;
    let b = a + p.m;
    let c = b + p.m;
    let width = p.m.div_ceil(2);
    let at = map.challenges + (turn.e - 1) * width;
    vectors::read_elements(packing, (turn.e - 1) * a, &mut values[0..a]);
    field::unpack_into(&work[at..at + width], &mut values[a..b]);
    memory::copy(&turn.basis.secret[p.n..a], &mut values[b..c]);
    memory::clear(&mut values[c..c + p.m]);
}
