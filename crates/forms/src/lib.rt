// The system of equations f = A0 + A1·A2: bytes of a tape, and the values of the forms at a secret.
// A circuit lies in lent bytes packed as it is expanded: tables A1, A2, A0, and of each all constants and then the rows.
// In `eval_circuit` the secret picks places in the table of products, and nothing else.

#![tactic(auto)]

mod values;

ghost use Rattle.std.specs.Prelude.{◌≡◌, ◌<◌, ◌≤◌, length};
ghost use Rattle.sponge.specs.Sponge.{shake256};
ghost use Rattle.forms.specs.Circuit.{Circuit, affine_length, eval_circuit};
ghost use Rattle.forms.specs.Room.{circuit_length, HoldsCircuit, hidden_in};

use values::Products;

// The bytes that hold a circuit of m equations in n variables.
pub fn circuit_len(n: usize, m: usize) -> usize
    requires { (n ≤ 118) × (m ≤ 121) }
    ensures { result ≡ circuit_length n m }
{
    let size = table_len(n, m);
    size + size + size
}

// The first bytes of the tape SHAKE256(seed, ∞), as many as `out` has: by algorithm 8 a circuit, by algorithm 7 the challenges or the hidden parties of all repetitions.
pub fn tape_bytes(seed: &[u8], out: &mut [u8])
    ensures { out.new ≡ shake256 seed.now (length out.old) }
{
    sponge::shake256(seed, out);
}

// The hidden party of repetition e, from 1 to 2^l, of the bytes that stand for all repetitions.
pub fn hidden_party(bytes: &[u8], l: usize, e: usize) -> usize
    requires { (l ≤ 8) × (1 ≤ e) × (e ≤ length bytes.now) }
    ensures { result ≡ hidden_in l bytes.now e }
{
    let b = memory::wide(bytes[e - 1]);
    b % (1 << l) + 1
}

// Algorithm 10, EvalCircuit: y and t of the secret s, an element to a byte.
pub fn eval_circuit(circuit: &[u8], n: usize, m: usize, s: &[u8], y: &mut [u8], t: &mut [u8])
    requires { (n ≤ 118) × (m ≤ 121) × (length circuit.now ≡ circuit_length n m) × (length s.now ≡ n) × (length y.old ≡ m) × (length t.old ≡ m) }
    ensures { (f : Circuit) → HoldsCircuit n m f circuit.now → eval_circuit s.now f ≡ record { y = y.new; t = t.new } }
{
    let products = Products::new();
    let size = table_len(n, m);
    memory::clear(y);
    memory::clear(t);
    values::add_affine(circuit, 0, s, &products, t);
    values::add_affine(circuit, size, s, &products, y);
    values::multiply(y, &products, t);
    values::add_affine(circuit, size + size, s, &products, t);
}

// The bytes of one of a circuit's three tables: the constants of m forms in n variables, and then their rows.
fn table_len(n: usize, m: usize) -> usize
    requires { (n ≤ 118) × (m ≤ 121) }
    ensures size { result ≡ affine_length n m }
    ensures small { result < 65536 }
{
    m.div_ceil(2) + m * n.div_ceil(2)
}
