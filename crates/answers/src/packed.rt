// The vectors of sixteen parties, packed together and absorbed. No lane picks a branch or an address.
ghost use Rattle.std.specs.Prelude.{◌≡◌, ℕ, ◌*◌, ◌≤◌, length, take};
ghost use mathlib.Core.List.{List, flatten};
ghost use Rattle.field.specs.Packing.{pack};
ghost use Rattle.sponge.specs.Steps.{absorbed};
ghost use Rattle.answers.specs.Passes.{Packs};

use sets::MOST_EQUATIONS;
use sponge::Sponge;

// The bytes of sixteen packed vectors of any set.
const PACKED: usize = 8 * MOST_EQUATIONS;

// The vectors of sixteen parties, packed together and absorbed.
pub fn absorb_group(sponge: Sponge, words: &[u64]) -> Sponge
    requires { (16 ≤ length words.now) × (length words.now ≤ 121) }
    ensures { (vs : List (List ℕ)) → Packs vs words.now → result ≡ absorbed sponge (pack (flatten vs)) }
{
    let n = 8 * words.len();
    let mut packed = [0u8; PACKED];
    pack_into(words, &mut packed);
    sponge.absorb(&packed[0..n])
}

// The vectors of sixteen parties, packed together over the start of `out`.
fn pack_into(words: &[u64], out: &mut [u8])
    requires { (16 ≤ length words.now) × (length words.now ≤ 121) × (length out.old ≡ PACKED) }
    ensures { (vs : List (List ℕ)) → Packs vs words.now → take (8 * length words.now) out.new ≡ pack (flatten vs) }
{
    turning::pack_parties(words, out);
}
