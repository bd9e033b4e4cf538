// The right lengths of each set, where the parts of keys and of a signature begin, and where all parts lie in the store. The first two are numbers in the columns of texts.
ghost use Rattle.std.specs.Prelude.{◌≤◌, ◌<◌};

// Where the parts of the store begin, and its end: the seeds, the random bytes, the keys and the message, each with room for a byte more than the longest.
pub const CIRCUIT_SEED: usize = 0;

pub const SECRET_SEED: usize = 33;

pub const RANDOM: usize = 66;

pub const SECRET_KEY: usize = 131;

pub const PUBLIC_KEY: usize = 344;

pub const MESSAGE: usize = 438;

pub const STORE: usize = 33207;

// A byte more than the longest signature.
pub const SIGNATURE: usize = 27349;

// The bytes of a column, of a row of lengths, and of a row of places; the column of the places of set 0, which there is not.
const COLUMN: usize = 6;

const LENGTHS: usize = 55;

const PLACES: usize = 61;

const NO_SET: usize = 18;

// The right number or length of the i-th thing that is lent: document 01's table, the short message that most cases sign, all random bytes, and the work that is needed.
pub fn right(set: usize, i: usize) -> usize
    requires { i < 9 }
    ensures { result < 1000000 }
{
    number(
        b"\
set    cseed sseed  skey  pkey  mess  rand  sign  work
     1    16    16   115    50    40    32  4758 65536
     2    16    16   115    50    40    32  6726 65536
     3    24    24   158    69    40    48 11349 65536
     4    24    24   158    69    40    48 15129 65536
     5    32    32   212    93    40    64 20192 65536
     6    32    32   212    93    40    64 27348 65536
",
        set % 7 * LENGTHS + i * COLUMN,
    )
}

// Where a place begins, counted from the start of its part.
pub fn byte(set: usize, place: u8) -> usize
    ensures { result < 1000000 }
{
    number(
        b"\
a circuit seed, salt         0     0     0     0     0     0
b secret seed               33    33    33    33    33    33
c message                  438   438   438   438   438   438
d s, t of a public key      16    16    24    24    32    32
e t of a secret key         48    48    68    68    91    91
f y                         82    82   113   113   152   152
g end of a secret key      114   114   157   157   211   211
h end of a public key       49    49    68    68    92    92
i first hash                32    32    48    48    64    64
j second hash               64    64    96    96   128   128
k first path                96    96   144   144   192   192
l first commitment         224   160   336   240   448   320
m last path               2816  3264  7104  7776 12672 14016
n last commitment         2975  3359  7343  7919 12991 14207
o first delta s           2976  3360  7344  7920 12992 14208
p first delta c           3008  3392  7388  7964 13051 14267
q last delta c            4154  5586  9998 12698 17771 22931
r first alpha             4155  5587  9999 12699 17772 22932
s last alpha              4757  6725 11348 15128 20191 27347
",
        letter(place) * PLACES + NO_SET + set % 7 * COLUMN,
    )
}

// The place of a letter after a, from 0.
fn letter(b: u8) -> usize
    ensures { result < 256 }
{
    if b < b'a' {
        return 0;
    }
    usize::from(b - b'a')
}

// The number in the column that begins at a place: its digits in order, and 0 where there are none.
fn number(text: &[u8], at: usize) -> usize
    requires { at ≤ 65536 }
    ensures { result < 1000000 }
{
    let mut n = 0;
    for i in 0..COLUMN {
        n = with_digit(n, byte_at(text, at + i));
    }
    n
}

// The number with a digit more; a byte that is no digit changes nothing.
fn with_digit(n: usize, b: u8) -> usize
    requires { n < 1000000 }
    ensures { result < 1000000 }
{
    if b < b'0' {
        return n;
    }
    if b'9' < b {
        return n;
    }
    n % 100000 * 10 + digit(b)
}

// The number of a digit; 0 of anything else.
pub fn digit(b: u8) -> usize
    ensures { result < 10 }
{
    if b < b'0' {
        return 0;
    }
    if b'9' < b {
        return 0;
    }
    usize::from(b - b'0')
}

// A byte of a text; a blank behind its end.
fn byte_at(text: &[u8], i: usize) -> u8 {
    if i < text.len() {
        return text[i];
    }
    b' '
}

// Where a part of the store begins: the input, the secret key, the public key.
pub fn part(mark: u8) -> usize
    ensures { result < 1000 }
{
    match mark {
        b'2' => SECRET_KEY,
        b'3' => PUBLIC_KEY,
        _ => 0,
    }
}
