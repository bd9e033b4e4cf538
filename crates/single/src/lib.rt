// The α of one party alone, for the hidden parties of a signature: the forms A1 at its share, which is one vector, times the challenge, plus its mask.
// No secret picks a branch or an address; the numbers of the repetition and of the party are public.

#![tactic(auto)]

mod masks;

ghost use Rattle.std.specs.Prelude.{cond, ◌≡◌, ◌≤◌, eqb, length, drop};
ghost use Rattle.field.specs.Field.{mul};
ghost use Rattle.field.specs.Packing.{unpack};
ghost use Rattle.field.specs.Vectors.{◌⊕◌, ◌⊙◌};
ghost use Rattle.sets.specs.declared.Params.{Params};
ghost use Rattle.forms.specs.Circuit.{Circuit, forms_of, linear};
ghost use Rattle.forms.specs.Room.{circuit_length, circuit_in, affine_in, HoldsCircuit};
ghost use Rattle.parties.specs.Parties.{corrected, alpha_of};
ghost use Rattle.parties.specs.Repetition.{raw_share};
ghost use Rattle.group.specs.Shares.{Sized, values_length, delta_s, delta_c, epsilon, sampled};

use group::Rep;
use hashes::Salted;
use parties::LONGEST_TAPE;
use sets::{MOST_EQUATIONS, MOST_VARIABLES};

// Algorithm 12, line 27, for one party: the α of party i with this seed, an element to a byte.
pub fn alpha_of(
    rep: Rep,
    salt: &[u8],
    circuit: &[u8],
    values: &[u8],
    i: usize,
    seed: &[u8],
    out: &mut [u8],
)
    requires { (Sized rep) × (length salt.now ≤ 64) × (length circuit.now ≡ circuit_length rep.n rep.m) × (length values.now ≡ values_length rep) × (length seed.now ≤ 32) × (length out.old ≡ rep.m) }
    ensures { (P : Params) (f : Circuit) → P.n ≡ rep.n → P.m ≡ rep.m → HoldsCircuit rep.n rep.m f circuit.now → out.new ≡ alpha_of f (epsilon rep values.now) i (corrected (delta_s rep values.now) (delta_c rep values.now) i (raw_share P salt.now rep.e i seed.now)) }
{
    let e = rep.n.div_ceil(2) + 2 * rep.m.div_ceil(2);
    let mut tape = [0u8; LONGEST_TAPE];
    Salted { salt, e: rep.e }.tape(i, seed, &mut tape[0..e]);
    of_tape(rep, i, circuit, values, &tape[0..e], out);
}

// The same from the party's tape.
fn of_tape(rep: Rep, i: usize, circuit: &[u8], values: &[u8], tape: &[u8], out: &mut [u8])
    requires { (Sized rep) × (length circuit.now ≡ circuit_length rep.n rep.m) × (length values.now ≡ values_length rep) × (length out.old ≡ rep.m) }
    ensures { out.new ≡ alpha_of (circuit_in rep.n rep.m circuit.now) (epsilon rep values.now) i (corrected (delta_s rep values.now) (delta_c rep values.now) i (sampled rep tape.now)) }
{
    let n = rep.n;
    let b = n + rep.m;
    let c = b + rep.m;
    let mut s = [0u8; MOST_VARIABLES];
    own_share(i, tape, &values[0..n], &mut s[0..n]);
    own_forms(rep, i, circuit, &s[0..n], out);
    answer(&values[b..c], tape, n.div_ceil(2), out);
}

// The secret's share that lies in a tape; party 1 alone adds Δs.
fn own_share(i: usize, tape: &[u8], delta: &[u8], s: &mut [u8])
    requires { length delta.now ≡ length s.old }
    ensures { s.new ≡ cond (eqb i 1) (unpack (length s.old) tape.now ⊕ delta.now) (unpack (length s.old) tape.now) }
{
    if i == 1 {
        memory::copy(delta, s);
        add_elements(tape, s);
        return;
    }
    field::unpack_into(tape, s);
}

// Adds to each entry the element of the bytes at its place.
fn add_elements(bytes: &[u8], v: &mut [u8])
    ensures { v.new ≡ unpack (length v.old) bytes.now ⊕ v.old }
{
    for (k, x) in v.iter_mut().enumerate() {
        *x = *x ^ field::element(bytes, k);
    }
}

// The forms A1 of party i at its share; party 1 alone keeps the constants.
fn own_forms(rep: Rep, i: usize, circuit: &[u8], s: &[u8], out: &mut [u8])
    requires { (Sized rep) × (length circuit.now ≡ circuit_length rep.n rep.m) × (length s.now ≡ rep.n) × (length out.old ≡ rep.m) }
    ensures { out.new ≡ forms_of i (affine_in rep.n rep.m circuit.now) s.now }
{
    first_forms(rep, circuit, s, out);
    if i == 1 {
        add_elements(circuit, out);
        return;
    }
}

// The forms A1 of each equation at one vector, without their constants.
fn first_forms(rep: Rep, circuit: &[u8], s: &[u8], out: &mut [u8])
    requires { (Sized rep) × (length circuit.now ≡ circuit_length rep.n rep.m) × (length s.now ≡ rep.n) × (length out.old ≡ rep.m) }
    ensures { out.new ≡ linear (affine_in rep.n rep.m circuit.now) s.now }
{
    let n = rep.n;
    let m = rep.m;
    let mut all = [0u64; masks::MASKS];
    let mut sums = [0u64; MOST_EQUATIONS];
    masks::fill(s, &mut all);
    masks::rows(
        circuit,
        m.div_ceil(2),
        n.div_ceil(2),
        n.div_ceil(16),
        &all,
        &mut sums[0..m],
    );
    marks::fold_into(&sums[0..m], out);
}

// x times the challenge plus a, which lies in the tape from the byte `mask` on.
fn answer(challenge: &[u8], tape: &[u8], mask: usize, out: &mut [u8])
    requires { (length challenge.now ≡ length out.old) × (length out.old ≤ 121) × (mask ≤ 181) }
    ensures { out.new ≡ out.old ⊙ challenge.now ⊕ unpack (length out.old) (drop mask tape.now) }
{
    for (k, x) in out.iter_mut().enumerate() {
        *x = product(*x, challenge[k]) ^ field::element(tape, mask * 2 + k);
    }
}

// The product of two elements as that of a word's first lane: a secret picks no place of the table.
fn product(x: u8, e: u8) -> u8
    ensures { result ≡ mul x e }
{
    (lanes::times(u64::from(x), e) % 16) as u8
}
