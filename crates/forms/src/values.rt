// The values of affine forms at one vector, an element to a byte, by single products from the table.
ghost use Rattle.std.specs.Prelude.{◌≡◌, ◌+◌, ◌*◌, ◌≤◌, length, drop};
ghost use Rattle.field.specs.Field.{mul};
ghost use Rattle.field.specs.Packing.{unpack};
ghost use Rattle.field.specs.ProductTable.{ProductTable};
ghost use Rattle.field.specs.Vectors.{◌⊕◌, ◌⊙◌, dot};
ghost use Rattle.forms.specs.Circuit.{affine_length, affine};
ghost use Rattle.forms.specs.Room.{affine_in};

// The table of the products of all pairs of elements.
#[derive(Drop)]
pub struct Products {
    pub table: [u8; 256],
    pub ghost all: { ProductTable table },
}

impl Products {
    // The table, of the field.
    pub fn new() -> Products {
        Products {
            table: field::products(),
        }
    }

    // The product of two elements.
    pub fn of(&self, a: u8, b: u8) -> u8
        ensures { result ≡ mul a b }
    {
        self.table[memory::wide(a % 16) * 16 + memory::wide(b % 16)]
    }
}

// Adds to each element of `out` its affine form at s: its constant, and its row of coefficients times s. The table stands at `start`.
pub fn add_affine(circuit: &[u8], start: usize, s: &[u8], products: &Products, out: &mut [u8])
    requires { start + affine_length (length s.now) (length out.old) ≤ length circuit.now }
    ensures { out.new ≡ out.old ⊕ affine (affine_in (length s.now) (length out.old) (drop start circuit.now)) s.now }
{
    let width = s.len().div_ceil(2);
    let rows = start + out.len().div_ceil(2);
    for (k, x) in out.iter_mut().enumerate() {
        *x ^= field::element(circuit, start * 2 + k)
            ^ row_product(circuit, rows + k * width, s, products);
    }
}

// A row of coefficients times s.
fn row_product(circuit: &[u8], row: usize, s: &[u8], products: &Products) -> u8
    requires { row * 2 + length s.now ≤ length circuit.now * 2 }
    ensures { result ≡ dot (unpack (length s.now) (drop row circuit.now)) s.now }
{
    let mut sum = 0;
    for (i, b) in s.iter().enumerate() {
        sum ^= products.of(field::element(circuit, row * 2 + i), *b);
    }
    sum
}

// Multiplies each element of `out` by that of y.
pub fn multiply(y: &[u8], products: &Products, out: &mut [u8])
    requires { length y.now ≡ length out.old }
    ensures { out.new ≡ out.old ⊙ y.now }
{
    for (k, x) in out.iter_mut().enumerate() {
        *x = products.of(*x, y[k]);
    }
}
