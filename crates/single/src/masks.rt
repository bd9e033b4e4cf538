// A row of packed coefficients times one vector, sixteen coefficients to a word: a row's word is taken under four masks, which have 15 in the lanes of the elements that have
// a bit. The four sums, times 1, 2, 4 and 8, are the products, lane by lane. No element picks a branch or an address.
ghost use Rattle.std.specs.Prelude.{◌≡◌, ℕ, ◌+◌, ◌*◌, ◌≤◌, ◌<◌, length, get_or};
ghost use Rattle.field.specs.Packing.{nib};
ghost use Rattle.field.specs.Vectors.{◌!◌};
ghost use Rattle.field.specs.Sums.{dot_of};
ghost use Rattle.lanes.specs.Lanes.{lane};
ghost use Rattle.marks.specs.Marks.{lane_sum};
ghost use Rattle.single.specs.Masks.{MaskOf, MasksOf, RowsOf, weigh};

// Eight words of sixteen elements hold any vector: their bytes, and their masks, four for each.
const WORDS: usize = 8;

const PACKED: usize = 8 * WORDS;

pub const MASKS: usize = 4 * WORDS;

// The ones of a word.
const ONES: u64 = 0x1111111111111111;

// The masks of a vector.
pub fn fill(s: &[u8], masks: &mut [u64])
    requires { (length s.now ≤ 128) × (length masks.old ≡ MASKS) }
    ensures { MasksOf (λ j. s.now ! j) 8 masks.new }
{
    let mut packed = [0u8; PACKED];
    field::pack_into(s, &mut packed);
    each(&packed, masks);
}

// The masks of packed elements, four for each word.
fn each(packed: &[u8], masks: &mut [u64])
    requires { (length packed.now ≡ PACKED) × (length masks.old ≡ MASKS) }
    ensures { MasksOf (nib packed.now) 8 masks.new }
{
    for w in 0..WORDS {
        let a = w * 4;
        four(lanes::word_at(packed, 8 * w), &mut masks[a..a + 4]);
    }
}

// The four masks of a word.
fn four(x: u64, masks: &mut [u64])
    requires { length masks.old ≡ 4 }
    ensures { (b : ℕ) → b < 4 → MaskOf x b (get_or masks.new b 0) }
{
    for (b, m) in masks.iter_mut().enumerate() {
        *m = mask(x, b);
    }
}

// 15 in the lanes of a word that have the bit b, and 0 elsewhere.
fn mask(x: u64, b: usize) -> u64
    requires { b < 4 }
    ensures { MaskOf x b result }
{
    ((x >> b) & ONES) * 15
}

// Fills `out` with words whose lanes add up to the rows' products with the vector of the masks. The first row stands at the byte `start`, and each next one `width` further on.
pub fn rows(bytes: &[u8], start: usize, width: usize, words: usize, masks: &[u64], out: &mut [u64])
    requires { (words ≤ 8) × (width < 4096) × (start + length out.old * width + 8 * words ≤ length bytes.now + width) × (length masks.now ≡ MASKS) }
    ensures { (s : ℕ → ℕ) → MasksOf s 8 masks.now → RowsOf bytes.now start width (16 * words) s (length out.old) out.new }
{
    for (k, sums) in out.iter_mut().enumerate() {
        *sums = row(bytes, start + k * width, words, masks);
    }
}

// A word whose lanes add up to a row's product with the vector of the masks.
fn row(bytes: &[u8], at: usize, words: usize, masks: &[u64]) -> u64
    requires { (words ≤ 8) × (at + 8 * words ≤ length bytes.now) × (length masks.now ≡ MASKS) }
    ensures { (s : ℕ → ℕ) → MasksOf s 8 masks.now → lane_sum result ≡ dot_of (16 * words) (λ j. nib bytes.now (at * 2 + j)) s }
{
    let mut a = 0;
    let mut b = 0;
    let mut c = 0;
    let mut d = 0;
    for w in 0..words {
        let x = lanes::word_at(bytes, at + 8 * w);
        a = a ^ (x & masks[w * 4]);
        b = b ^ (x & masks[w * 4 + 1]);
        c = c ^ (x & masks[w * 4 + 2]);
        d = d ^ (x & masks[w * 4 + 3]);
    }
    weighted(a, b, c, d)
}

// a + 2b + 4c + 8d, lane by lane.
fn weighted(a: u64, b: u64, c: u64, d: u64) -> u64
    ensures { (k : ℕ) → k < 16 → lane k result ≡ weigh (lane k a) (lane k b) (lane k c) (lane k d) }
{
    let x = c ^ lanes::times(d, 2);
    let y = b ^ lanes::times(x, 2);
    a ^ lanes::times(y, 2)
}
