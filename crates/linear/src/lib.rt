// The linear parts of the forms of a circuit at the shares of sixteen parties, which stand in the lanes of words: for one vector of words, and for two at once.
// The circuit lies in lent bytes as crate `forms` says. No share picks a branch or an address.

#![tactic(auto)]

mod rows;
mod sums;
mod tables;
mod word;

ghost use Rattle.std.specs.Prelude.{◌≡◌, ℕ, ◌≤◌, List, length};
ghost use Rattle.field.specs.Vectors.{◌!◌};
ghost use Rattle.lanes.specs.Lanes.{Holds};
ghost use Rattle.forms.specs.Circuit.{Circuit};
ghost use Rattle.forms.specs.Room.{circuit_length, HoldsCircuit};
ghost use Rattle.linear.specs.Forms.{HoldsForms};

use crate::tables::Tables;
use crate::word::Pair;

// The most variables that a circuit has.
pub const VARIABLES: usize = 118;

// The most equations.
pub const EQUATIONS: usize = 121;

// The bytes of a row in a block of columns, for one vector of words.
const BLOCK: usize = 8;

// The sums that a block's bytes pick from, 256 for each.
const SUMS: usize = 2048;

// The bytes of a row in a block of columns, for two vectors at once.
const PAIR_BLOCK: usize = 4;

// The sums that a block's bytes pick from, 256 pairs for each.
const PAIR_SUMS: usize = 1024;

// Algorithm 9 without constants and t: the forms A1, A2 and A0 of each equation at the shares of sixteen parties, to x, y and z.
// Stays: what may not change: docs/STATEMENTS.md names this function, and its callers pass the circuit beside its sizes, and the three results apart.
pub fn linear_forms(
    circuit: &[u8],
    n: usize,
    m: usize,
    shares: &[u64],
    x: &mut [u64],
    y: &mut [u64],
    z: &mut [u64],
)
    requires { (n ≤ 118) × (m ≤ 121) × (length circuit.now ≡ circuit_length n m) × (length shares.now ≡ n) × (length x.old ≡ m) × (length y.old ≡ m) × (length z.old ≡ m) }
    ensures { (f : Circuit) (share : ℕ → List ℕ) → HoldsCircuit n m f circuit.now → Holds (λ q i. share q ! i) shares.now → HoldsForms f share x.new y.new z.new }
{
    let tables = Tables::of(circuit, n, m);
    let mut sums = [0u64; SUMS];
    x.fill(0);
    y.fill(0);
    z.fill(0);
    rows::add_tables::<u64, BLOCK>(&tables, shares, &mut sums, x, y, z);
}

// The same at the shares in two vectors of words: the forms at the shares to x, y and z, at the others to x2, y2 and z2.
// Stays: what may not change: docs/STATEMENTS.md names this function, and its callers pass the circuit beside its sizes, and the six results apart.
pub fn linear_two(
    circuit: &[u8],
    n: usize,
    m: usize,
    shares: &[u64],
    others: &[u64],
    x: &mut [u64],
    y: &mut [u64],
    z: &mut [u64],
    x2: &mut [u64],
    y2: &mut [u64],
    z2: &mut [u64],
)
    requires { (n ≤ 118) × (m ≤ 121) × (length circuit.now ≡ circuit_length n m) × (length shares.now ≡ n) × (length others.now ≡ n) × (length x.old ≡ m) × (length y.old ≡ m) × (length z.old ≡ m) × (length x2.old ≡ m) × (length y2.old ≡ m) × (length z2.old ≡ m) }
    ensures { ((f : Circuit) (share : ℕ → List ℕ) → HoldsCircuit n m f circuit.now → Holds (λ q i. share q ! i) shares.now → HoldsForms f share x.new y.new z.new) × ((f : Circuit) (share : ℕ → List ℕ) → HoldsCircuit n m f circuit.now → Holds (λ q i. share q ! i) others.now → HoldsForms f share x2.new y2.new z2.new) }
{
    let tables = Tables::of(circuit, n, m);
    let mut words = [Pair::ZERO; VARIABLES];
    let mut sums = [Pair::ZERO; PAIR_SUMS];
    let mut xs = [Pair::ZERO; EQUATIONS];
    let mut ys = [Pair::ZERO; EQUATIONS];
    let mut zs = [Pair::ZERO; EQUATIONS];
    let words = &mut words[0..n];
    let xs = &mut xs[0..m];
    let ys = &mut ys[0..m];
    let zs = &mut zs[0..m];
    word::join(shares, others, words);
    rows::add_tables::<Pair, PAIR_BLOCK>(&tables, words, &mut sums, xs, ys, zs);
    word::part(xs, x, x2);
    word::part(ys, y, y2);
    word::part(zs, z, z2);
}
