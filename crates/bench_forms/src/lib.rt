// Exported calls for the benchmark: the values of the forms at sixteen shares, and the bytes of a tape. Sizes that do not fit change nothing.

#![tactic(auto)]

ghost use Rattle.std.specs.Prelude.{◌≡◌, List, ℕ, length};
ghost use Rattle.field.specs.Vectors.{◌!◌};
ghost use Rattle.lanes.specs.Lanes.{Holds};
ghost use Rattle.sponge.specs.Sponge.{shake256};
ghost use Rattle.forms.specs.Circuit.{Circuit};
ghost use Rattle.forms.specs.Room.{HoldsCircuit};
ghost use Rattle.linear.specs.Forms.{HoldsForms};
ghost use Rattle.bench_forms.specs.Fit.{FormsFit};

// The linear parts of the three forms at the shares of sixteen parties.
#[unsafe(no_mangle)]
pub extern "C" fn bench_linear_forms(
    circuit: &[u8],
    shares: &[u64],
    x: &mut [u64],
    y: &mut [u64],
    z: &mut [u64],
)
    ensures values { (f : Circuit) (share : ℕ → List ℕ) → FormsFit circuit.now shares.now x.old y.old z.old → HoldsCircuit (length shares.now) (length x.old) f circuit.now → Holds (λ q i. share q ! i) shares.now → HoldsForms f share x.new y.new z.new }
    ensures kept { (FormsFit circuit.now shares.now x.old y.old z.old → ⊥) → (x.new ≡ x.old) × (y.new ≡ y.old) × (z.new ≡ z.old) }
{
    let n = shares.len();
    let m = x.len();
    if n <= linear::VARIABLES
        && m <= linear::EQUATIONS
        && y.len() == m
        && z.len() == m
        && circuit.len() == forms::circuit_len(n, m)
    {
        linear::linear_forms(circuit, n, m, shares, x, y, z);
    }
}

// The first bytes of the tape of a seed.
#[unsafe(no_mangle)]
pub extern "C" fn bench_tape_bytes(seed: &[u8], out: &mut [u8])
    ensures { out.new ≡ shake256 seed.now (length out.old) }
{
    forms::tape_bytes(seed, out);
}
