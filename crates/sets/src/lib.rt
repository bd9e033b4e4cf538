// The six sets: their parameters, and the sizes of keys and signature that follow from them.
// Facts of later crates are over the parameters; only this crate knows the numbers of a set.

#![tactic(auto)]

ghost use Rattle.std.specs.Prelude.{◌≡◌};
ghost use Rattle.sets.specs.Sets.{params_of, RowOf, secret_key_length, public_key_length, signature_length};

// What a set fixes: security bits, n variables, m equations, tau repetitions, and l levels of the seed tree (2 to the l parties).
#[derive(Clone, Copy)]
pub struct Params {
    pub bits: usize,
    pub n: usize,
    pub m: usize,
    pub tau: usize,
    pub l: usize,
}

// What the table holds of a set: its parameters, and the bytes of its keys and signature.
#[derive(Clone, Copy)]
struct Row {
    params: Params,
    secret_key: usize,
    public_key: usize,
    signature: usize,
}

// The six sets, and a row of zeros in front.
#[rattlefmt::skip]
const SETS: [Row; 7] = [
    Row { params: Params { bits: 0, n: 0, m: 0, tau: 0, l: 0 }, secret_key: 0, public_key: 0, signature: 0 },
    Row { params: Params { bits: 128, n: 64, m: 67, tau: 18, l: 8 }, secret_key: 115, public_key: 50, signature: 4758 },
    Row { params: Params { bits: 128, n: 64, m: 67, tau: 34, l: 4 }, secret_key: 115, public_key: 50, signature: 6726 },
    Row { params: Params { bits: 192, n: 87, m: 90, tau: 30, l: 8 }, secret_key: 158, public_key: 69, signature: 11349 },
    Row { params: Params { bits: 192, n: 87, m: 90, tau: 54, l: 4 }, secret_key: 158, public_key: 69, signature: 15129 },
    Row { params: Params { bits: 256, n: 118, m: 121, tau: 40, l: 8 }, secret_key: 212, public_key: 93, signature: 20192 },
    Row { params: Params { bits: 256, n: 118, m: 121, tau: 73, l: 4 }, secret_key: 212, public_key: 93, signature: 27348 },
];

// The most that a set has, which is what the last has: room for these is room for every set.
pub const MOST_VARIABLES: usize = SETS[6].params.n;

pub const MOST_EQUATIONS: usize = SETS[6].params.m;

pub const MOST_REPETITIONS: usize = SETS[6].params.tau;

// The bytes of the longest seed, and of the longest salt, hash or commitment, which have two seeds' length.
pub const LONGEST_SEED: usize = SETS[6].params.bits / 8;

pub const LONGEST_HASH: usize = 2 * LONGEST_SEED;

// The parameters of a set; zeros where the number names none.
pub fn params_of(set: usize) -> Params
    ensures { result ≡ params_of set }
{
    row_of(set).params
}

// The bytes of a secret key of a set.
pub fn secret_key_len(set: usize) -> usize
    ensures { result ≡ secret_key_length (params_of set) }
{
    row_of(set).secret_key
}

// The bytes of a public key of a set.
pub fn public_key_len(set: usize) -> usize
    ensures { result ≡ public_key_length (params_of set) }
{
    row_of(set).public_key
}

// The bytes of a signature of a set.
pub fn signature_len(set: usize) -> usize
    ensures { result ≡ signature_length (params_of set) }
{
    row_of(set).signature
}

// The row of a set; that of zeros where the number names none.
#[tactic(auto, using(crate::proofs::Laws::no_such_row))]
fn row_of(set: usize) -> Row
    ensures { RowOf set result }
{
    // Borrowed, the table stays where it is; used by its name, all of it would be laid on the stack at each call.
    let rows = &SETS;
    if set < rows.len() { rows[set] } else { rows[0] }
}
