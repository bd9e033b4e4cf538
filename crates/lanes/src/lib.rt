// Sixteen elements of the field of 16 in the sixteen four-bit lanes of a u64: products, and the eight bytes of a word.
// The sum of two words is their exclusive or. No element chooses a branch or an address.

#![tactic(auto)]

ghost use Rattle.std.specs.Prelude.{◌≡◌, ◌+◌, ◌≤◌, ◌<◌, length};
ghost use Rattle.memory.specs.Lists.{over, put};
ghost use Rattle.lanes.specs.Lanes.{Times, Multiples, WordAt, word_bytes};

// Each lane times the element e.
pub fn times(w: u64, e: u8) -> u64
    ensures { Times w e result }
{
    let w2 = doubled(w);
    let w4 = doubled(w2);
    let w8 = doubled(w4);
    let n = u64::from(e);
    (w * (n % 2)) ^ (w2 * (n / 2 % 2)) ^ (w4 * (n / 4 % 2)) ^ (w8 * (n / 8 % 2))
}

// The sixteen multiples of a word, written to a part of sixteen words.
pub fn multiples(w: u64, t: &mut [u64])
    requires { length t.old ≡ 16 }
    ensures { Multiples w t.new }
{
    let w2 = doubled(w);
    let w4 = doubled(w2);
    let w8 = doubled(w4);
    let w3 = w ^ w2;
    let w12 = w4 ^ w8;
    let all = [
        0,
        w,
        w2,
        w3,
        w4,
        w ^ w4,
        w2 ^ w4,
        w3 ^ w4,
        w8,
        w ^ w8,
        w2 ^ w8,
        w3 ^ w8,
        w12,
        w ^ w12,
        w2 ^ w12,
        w3 ^ w12,
    ];
    t.copy_from_slice(&all);
}

// Each lane times x, the element 2.
fn doubled(w: u64) -> u64
    ensures { Times w 2 result }
{
    ((w & 0x7777777777777777) * 2) ^ (((w >> 3) & 0x1111111111111111) * 3)
}

// The word whose lanes are the sixteen elements in the eight bytes from the place `at` on.
pub fn word_at(bytes: &[u8], at: usize) -> u64
    requires { at + 8 ≤ length bytes.now }
    ensures { WordAt bytes.now at result }
{
    let mut word = [0; 8];
    word.copy_from_slice(&bytes[at..at + 8]);
    u64::from_le_bytes(word)
}

// Writes the sixteen elements of a word to the eight bytes from the place `at` on.
pub fn put_word(bytes: &mut [u8], at: usize, w: u64)
    requires { at + 8 ≤ length bytes.old }
    ensures { bytes.new ≡ put bytes.old at (word_bytes w) }
{
    bytes[at..at + 8].copy_from_slice(&w.to_le_bytes());
}

// Writes `src` over the start of `dst`, as much of it as has room; the later words of `dst` are kept.
pub fn copy_words(src: &[u64], dst: &mut [u64])
    ensures { dst.new ≡ over src.now dst.old }
{
    memory::copy(src, dst);
}
