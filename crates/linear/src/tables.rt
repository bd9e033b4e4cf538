// Where the three tables of coefficients stand in the bytes of a circuit.
ghost use Rattle.std.specs.Prelude.{◌≡◌, ◌+◌, ◌*◌, ◌≤◌, ◌<◌, length, drop};
ghost use Rattle.forms.specs.Circuit.{affine_length};
ghost use Rattle.forms.specs.Room.{circuit_length};
ghost use Rattle.linear.specs.Tables.{TableAt};

// A table of packed coefficients: `rows` rows of `width` bytes, one behind another at the start of the bytes.
#[derive(Clone, Copy)]
pub struct Table<'a> {
    pub bytes: &'a [u8],
    pub width: usize,
    pub rows: usize,
    ghost full: { rows * width ≤ length bytes.now },
    ghost narrow: { width < 4096 },
}

// The tables of the forms A1, A2 and A0: a row for each form.
#[derive(Clone, Copy)]
pub struct Tables<'a> {
    pub first: Table<'a>,
    pub second: Table<'a>,
    pub third: Table<'a>,
    ghost second_wide: { second.width ≡ first.width },
    ghost third_wide: { third.width ≡ first.width },
}

impl<'a> Tables<'a> {
    // The tables of a circuit of m equations in n variables: each stands behind m constants.
    pub fn of(circuit: &'a [u8], n: usize, m: usize) -> Tables<'a>
        requires { (n ≤ 118) × (m ≤ 121) × (length circuit.now ≡ circuit_length n m) }
        ensures first { TableAt n m circuit.now 0 result.first.bytes.now result.first.width result.first.rows }
        ensures second { TableAt n m circuit.now (affine_length n m) result.second.bytes.now result.second.width result.second.rows }
        ensures third { TableAt n m circuit.now (affine_length n m + affine_length n m) result.third.bytes.now result.third.width result.third.rows }
    {
        let width = n.div_ceil(2);
        let constants = m.div_ceil(2);
        let size = constants + m * width;
        Tables {
            first: table_at(circuit, constants, width, m),
            second: table_at(circuit, size + constants, width, m),
            third: table_at(circuit, size + size + constants, width, m),
        }
    }
}

// The table that begins at the place `start`.
fn table_at<'a>(circuit: &'a [u8], start: usize, width: usize, rows: usize) -> Table<'a>
    requires { (start + rows * width ≤ length circuit.now) × (width < 4096) }
    ensures { (result.bytes.now ≡ drop start circuit.now) × (result.width ≡ width) × (result.rows ≡ rows) }
{
    let bytes = &circuit[start..];
    Table { bytes, width, rows }
}
