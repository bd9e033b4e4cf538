// The circuit of a seed and what is printed of it: its elements, the values of a secret, and the linear parts at shares (`shares`).
ghost use Rattle.std.specs.Prelude.{◌≡◌, ◌≤◌, length};
ghost use Rattle.forms.specs.Room.{circuit_length};

use crate::{print, shares, vectors};
use sets::{LONGEST_SEED, MOST_EQUATIONS, MOST_VARIABLES};
use sponge::Sponge;
use std::io;

// The bytes of the longest circuit.
const CIRCUIT: usize = 21600;

// The equations of a set: m of them in n variables, and the bytes of their circuit.
#[derive(Clone, Copy)]
pub struct Equations<'a> {
    pub set: usize,
    pub n: usize,
    pub m: usize,
    pub circuit: &'a [u8],
    pub ghost sizes: { (n ≤ 118) × (m ≤ 121) × (length circuit.now ≡ circuit_length n m) },
}

// The circuit of a seed of s bytes, and its values.
pub fn of_seed(rt: HostRuntime, set: usize, s: usize, n: usize, m: usize) -> io::Result<()>
    requires { (s ≤ 32) × (n ≤ 118) × (m ≤ 121) }
{
    let mut seed = [0u8; LONGEST_SEED];
    lines::progression(11, 7, &mut seed);
    let size = forms::circuit_len(n, m);
    if CIRCUIT < size {
        return Ok(());
    }
    let mut circuit = [0u8; CIRCUIT];
    forms::tape_bytes(&seed[..s], &mut circuit[..size]);
    let of = Equations {
        set,
        n,
        m,
        circuit: &circuit[..size],
    };
    circuit_line(rt, of)?;
    values(rt, of)?;
    shares::linear_parts(rt, of)
}

// The elements of the circuit in the order of their expansion: three tables.
fn circuit_line(rt: HostRuntime, of: Equations<'_>) -> io::Result<()> {
    let size = of.circuit.len() / 3;
    let mut hash = Sponge::new();
    for j in 0..3 {
        hash = absorb_table(hash, of.n, of.m, &of.circuit[j * size..(j + 1) * size]);
    }
    print::case(rt, of.set, "circuit, digest")?;
    lines::hash_line(rt, hash)
}

// Absorbs a table: m constants, then m rows of n coefficients.
fn absorb_table(hash: Sponge, n: usize, m: usize, table: &[u8]) -> Sponge
    requires { (n ≤ 118) × (m ≤ 121) }
{
    let rows = vectors::packed(m);
    let constants = vectors::absorb_vector(hash, table, 0, m);
    vectors::absorb_vectors(constants, table, rows, n, m)
}

// y and t of a secret.
fn values(rt: HostRuntime, of: Equations<'_>) -> io::Result<()> {
    let (n, m) = (of.n, of.m);
    let mut secret = [0u8; MOST_VARIABLES];
    lines::progression(7, 1, &mut secret);
    lines::elements(&mut secret);
    let mut y = [0u8; MOST_EQUATIONS];
    let mut t = [0u8; MOST_EQUATIONS];
    forms::eval_circuit(of.circuit, n, m, &secret[..n], &mut y[..m], &mut t[..m]);
    print::case(rt, of.set, "y packed")?;
    print::packed_line(rt, &y[..m])?;
    print::case(rt, of.set, "t packed")?;
    print::packed_line(rt, &t[..m])
}
