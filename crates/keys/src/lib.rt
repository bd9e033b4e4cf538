// Keys: made from two seeds (algorithm 11 of the submission), read from their bytes, held to their own circuit, and the public half of a secret key.
// No element of a secret chooses a branch. The product alone reads its table at a place that its operands give; whether a key is consistent is told, and nothing else of it.

#![tactic(auto)]

ghost use Rattle.std.specs.Prelude.{◌≡◌, ◌&&◌, cond, ◌++◌, ◌+◌, ◌≤◌, length, take, drop};
ghost use Rattle.memory.specs.Lists.{same};
ghost use Rattle.field.specs.Packing.{pack, packed_length};
ghost use Rattle.sponge.specs.Sponge.{shake256};
ghost use Rattle.sets.specs.Sets.{S, secret_key_length, public_key_length};
ghost use Rattle.forms.specs.Circuit.{Circuit, eval_circuit};
ghost use Rattle.forms.specs.Room.{circuit_length, HoldsCircuit};
ghost use Rattle.forms.specs.Sampling.{expand_elements};
ghost use Rattle.refusals.specs.Refusals.{work_length};
ghost use Rattle.biscuit.specs.Keys.{secret_key, public_key, packed_secret, consistent_key, public_half};
ghost use Rattle.biscuit.specs.Room.{Fits};
ghost use Rattle.keys.specs.Values.{KeyValues};

use sets::{MOST_EQUATIONS, MOST_VARIABLES, Params};

// The most bytes of a packed s.
// Stays: tried as `MOST_VARIABLES.div_ceil(2)`; a call in a constant's value is not supported.
const PACKED: usize = (MOST_VARIABLES + 1) / 2;

// The most elements of a secret key: s, t and y.
pub const SECRET: usize = MOST_VARIABLES + 2 * MOST_EQUATIONS;

// Stays: that the set fits, and how long a key and work are, are clauses of each public function: they are called with slices that C lends, and a type in their place would change what is called.

// Algorithm 11: fills `sk` and `pk` with the keys of two seeds. `work` may hold anything afterwards.
pub fn make_keys(
    p: Params,
    circuit_seed: &[u8],
    secret_seed: &[u8],
    sk: &mut [u8],
    pk: &mut [u8],
    work: &mut [u8],
)
    requires { Fits p × (length circuit_seed.now ≡ S p) × (length secret_seed.now ≡ S p) × (length sk.old ≡ secret_key_length p) × (length pk.old ≡ public_key_length p) × (length work.old ≡ work_length) }
    ensures { (sk.new ≡ secret_key p circuit_seed.now secret_seed.now) × (pk.new ≡ public_key p circuit_seed.now secret_seed.now) }
{
    let c = forms::circuit_len(p.n, p.m);
    let mut s = [0u8; MOST_VARIABLES];
    let mut t = [0u8; MOST_EQUATIONS];
    let mut y = [0u8; MOST_EQUATIONS];
    let s = &mut s[0..p.n];
    let t = &mut t[0..p.m];
    let y = &mut y[0..p.m];
    key_values(p, circuit_seed, secret_seed, &mut work[0..c], s, t, y);
    write_secret(circuit_seed, s, t, y, sk);
    write_public(circuit_seed, t, pk);
    memory::clear(s);
    memory::clear(y);
}

// The elements s, t and y of a secret key, an element to a byte.
pub fn read_secret(p: Params, sk: &[u8], secret: &mut [u8])
    requires { Fits p × (length sk.now ≡ secret_key_length p) × (length secret.old ≡ p.n + p.m + p.m) }
    ensures { secret.new ≡ packed_secret p sk.now }
{
    let a = p.bits / 8;
    field::unpack_into(&sk[a..sk.len()], secret);
}

// Whether t and y are the values that a secret key's own circuit seed and s give: both are compared whatever the first shows. Fills `secret` with s, t and y, and `circuit` with the circuit's bytes.
pub fn consistent(p: Params, sk: &[u8], secret: &mut [u8], circuit: &mut [u8]) -> bool
    requires { Fits p × (length sk.now ≡ secret_key_length p) × (length secret.old ≡ p.n + p.m + p.m) × (length circuit.old ≡ circuit_length p.n p.m) }
    ensures { (result ≡ consistent_key p sk.now) × (secret.new ≡ packed_secret p sk.now) × (circuit.new ≡ shake256 (take (S p) sk.now) (circuit_length p.n p.m)) }
{
    let (n, m) = (p.n, p.m);
    let a = p.bits / 8;
    let mut t = [0u8; MOST_EQUATIONS];
    let mut y = [0u8; MOST_EQUATIONS];
    let t = &mut t[0..m];
    let y = &mut y[0..m];
    read_secret(p, sk, secret);
    forms::tape_bytes(&sk[0..a], circuit);
    forms::eval_circuit(circuit, n, m, &secret[0..n], y, t);
    let target = memory::equal(&secret[n..n + m], t);
    let second = memory::equal(&secret[n + m..n + m + m], y);
    memory::clear(t);
    memory::clear(y);
    target & second
}

// Fills `pk` with the public half of a consistent secret key, and tells whether it is one; `pk` stays where it is not. `work` may hold anything afterwards.
pub fn public_half(p: Params, sk: &[u8], pk: &mut [u8], work: &mut [u8]) -> bool
    requires { Fits p × (length sk.now ≡ secret_key_length p) × (length pk.old ≡ public_key_length p) × (length work.old ≡ work_length) }
    ensures { (result ≡ consistent_key p sk.now) × (pk.new ≡ cond (consistent_key p sk.now) (public_half p sk.now) pk.old) }
{
    let (n, m) = (p.n, p.m);
    let a = p.bits / 8;
    let c = forms::circuit_len(n, m);
    let mut secret = [0u8; SECRET];
    let secret = &mut secret[0..n + m + m];
    let right = consistent(p, sk, secret, &mut work[0..c]);
    if right {
        write_public(&sk[0..a], &secret[n..n + m], pk);
    }
    memory::clear(secret);
    right
}

// Algorithm 11, lines 3, 5 and 6: expands the circuit and s, and works out t and y.
fn key_values(
    p: Params,
    circuit_seed: &[u8],
    secret_seed: &[u8],
    circuit: &mut [u8],
    s: &mut [u8],
    t: &mut [u8],
    y: &mut [u8],
)
    requires { Fits p × (length circuit.old ≡ circuit_length p.n p.m) × (length s.old ≡ p.n) × (length t.old ≡ p.m) × (length y.old ≡ p.m) }
    ensures { KeyValues p circuit_seed.now secret_seed.now s.new t.new y.new }
{
    forms::tape_bytes(circuit_seed, circuit);
    expand_secret(secret_seed, s);
    forms::eval_circuit(circuit, p.n, p.m, s, y, t);
}

// Algorithm 7, Expand(seed, 1, F_16, n): the elements of a seed's tape, an element to a byte.
fn expand_secret(seed: &[u8], s: &mut [u8])
    requires { length s.old ≤ 118 }
    ensures { s.new ≡ expand_elements seed.now (length s.old) 1 }
{
    let mut packed = [0u8; PACKED];
    let packed = &mut packed[0..s.len().div_ceil(2)];
    forms::tape_bytes(seed, packed);
    field::unpack_into(packed, s);
    memory::clear(packed);
}

// Algorithm 11, line 7: the bytes of a secret key.
fn write_secret(seed: &[u8], s: &[u8], t: &[u8], y: &[u8], sk: &mut [u8])
    requires { (length sk.old ≡ length seed.now + packed_length (length s.now + length t.now + length y.now)) × (length sk.old ≤ 65536) }
    ensures { sk.new ≡ seed.now ++ pack (s.now ++ (t.now ++ y.now)) }
{
    let (first, rest) = sk.split_at_mut(seed.len());
    memory::copy(seed, first);
    memory::clear(rest);
    vectors::write_elements(s, 0, rest);
    vectors::write_elements(t, s.len(), rest);
    vectors::write_elements(y, s.len() + t.len(), rest);
}

// Algorithm 11, line 8: the bytes of a public key.
fn write_public(seed: &[u8], t: &[u8], pk: &mut [u8])
    requires { length pk.old ≡ length seed.now + packed_length (length t.now) }
    ensures { pk.new ≡ seed.now ++ pack t.now }
{
    let (first, rest) = pk.split_at_mut(seed.len());
    memory::copy(seed, first);
    field::pack_into(t, rest);
}
