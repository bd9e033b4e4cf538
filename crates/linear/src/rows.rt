// Rows of packed coefficients times words of lanes: the value of many linear forms at the vectors in all lanes at once.
// A public byte of two coefficients picks one of the 256 sums of two words' multiples; no lane picks a branch or an address.
ghost use Rattle.std.specs.Prelude.{◌≡◌, List, ℕ, ◌+◌, ◌*◌, ◌≤◌, ◌<◌, length};
ghost use Rattle.linear.specs.Rows.{PairsFrom, RowAdded, RowsAdded};

use crate::sums;
use crate::tables::{Table, Tables};
use crate::word::Word;

// Adds to each word of x, y and z its row of the first, second and third table times the words, by blocks of B bytes of each row.
pub fn add_tables<W: Word, const B: usize>(
    tables: &Tables,
    words: &[W],
    sums: &mut [W],
    x: &mut [W],
    y: &mut [W],
    z: &mut [W],
)
    requires { (length x.old ≡ tables.now.first.rows) × (length y.old ≡ tables.now.second.rows) × (length z.old ≡ tables.now.third.rows) × (0 < B) × (B * 256 ≤ length sums.old) }
    ensures { (RowsAdded W.view tables.now.first.bytes.now 0 tables.now.first.width words.now 0 (tables.now.first.width * 2) x.old x.new) × (RowsAdded W.view tables.now.second.bytes.now 0 tables.now.second.width words.now 0 (tables.now.second.width * 2) y.old y.new) × (RowsAdded W.view tables.now.third.bytes.now 0 tables.now.third.width words.now 0 (tables.now.third.width * 2) z.old z.new) }
{
    let width = tables.first.width;
    for block in 0..width.div_ceil(B) {
        let at = block * B;
        let count = memory::lesser(B, width - at);
        sums::fill(words, at * 2, count, sums);
        add_rows::<W, B>(tables.first, at, count, sums, x);
        add_rows::<W, B>(tables.second, at, count, sums, y);
        add_rows::<W, B>(tables.third, at, count, sums, z);
    }
}

// Adds to each word of `out` the value of `count` bytes of its row, from the byte `at` of the row on: of a whole block at once, else byte by byte.
fn add_rows<W: Word, const B: usize>(
    table: Table,
    at: usize,
    count: usize,
    sums: &[W],
    out: &mut [W],
)
    requires { (length out.old ≡ table.rows) × (at + count ≤ table.width) × (count * 256 ≤ length sums.now) }
    ensures { (s : List W) (a : ℕ) → PairsFrom W.view s a count sums.now → RowsAdded W.view table.entry.bytes.now at table.entry.width s a (count * 2) out.old out.new }
{
    if count == B {
        add_columns::<W, B>(table, at, sums, out);
        return;
    }
    for i in 0..count {
        add_columns::<W, 1>(table, at + i, &sums[i * 256..i * 256 + 256], out);
    }
}

// Adds to each word of `out` the value of N bytes of its row, from the byte `at` of the row on.
fn add_columns<W: Word, const N: usize>(table: Table, at: usize, sums: &[W], out: &mut [W])
    requires { (length out.old ≡ table.rows) × (at + N ≤ table.width) × (N * 256 ≤ length sums.now) }
    ensures { (s : List W) (a : ℕ) → PairsFrom W.view s a N sums.now → RowsAdded W.view table.entry.bytes.now at table.entry.width s a (N * 2) out.old out.new }
{
    for (k, word) in out.iter_mut().enumerate() {
        let from = k * table.width + at;
        *word = add_row(*word, &table.bytes[from..from + N], sums);
    }
}

// The word with the value of a row's bytes added: each byte picks its pair's sum.
fn add_row<W: Word>(word: W, row: &[u8], sums: &[W]) -> W
    requires { length row.now * 256 ≤ length sums.now }
    ensures { (s : List W) (a : ℕ) → PairsFrom W.view s a (length row.now) sums.now → RowAdded W.view row.now 0 s a (length row.now * 2) word result }
{
    let mut sum = word;
    for (i, b) in row.iter().enumerate() {
        sum = sum.plus(sums[i * 256 + memory::wide(*b)]);
    }
    sum
}
