// Loops over words of sixteen lanes, one word for each place. No lane picks a branch or an address.

#![tactic(auto)]

ghost use Rattle.std.specs.Prelude.{◌≡◌, ℕ, ◌+◌, ◌*◌, ◌^◌, ◌≤◌, ◌<◌, length};
ghost use Rattle.std.specs.Int.Bits.{bit_xor};
ghost use Rattle.field.specs.Packing.{Elements};
ghost use Rattle.field.specs.Vectors.{◌!◌};
ghost use Rattle.lanes.specs.Lanes.{WordAt};
ghost use Rattle.marks.specs.Marks.{Flags, Mark, Marked, MarkedBytes, MarkedWord, Multiplied, Cleared, EachWord, keeping, WordsStored, lane_sum};

// A word with 15 in every lane.
const FULL: u64 = 0xffffffffffffffff;

// 1 in the lane of party i, if it is one of group g, and 0 elsewhere.
pub fn mark(g: usize, i: usize) -> u64
    requires { g < 256 }
    ensures { Mark g i result }
{
    let first = 16 * g + 1;
    if i < first {
        return 0;
    }
    let d = i - first;
    if d < 16 {
        return 1u64 << (4 * d);
    }
    0
}

// Adds to each word its element in the marked lanes.
pub fn add_marked(words: &mut [u64], values: &[u8], mark: u64)
    requires { (length words.old ≡ length values.now) × (Elements values.now) × (Flags mark) }
    ensures { Marked values.now mark words.old words.new }
{
    each_word(words, |k, w| marked(w, values[k], mark));
}

// Adds to each word an element of the bytes in the marked lanes; the first is element `i`.
pub fn add_constants(words: &mut [u64], bytes: &[u8], i: usize, mark: u64)
    requires { (i + length words.old < 65536) × (Flags mark) }
    ensures { MarkedBytes bytes.now i mark words.old words.new }
{
    each_word(words, |k, w| marked(w, field::element(bytes, i + k), mark));
}

// A word with an element added in the marked lanes.
fn marked(word: u64, element: u8, mark: u64) -> u64
    requires { (element < 16) × (Flags mark) }
    ensures { MarkedWord element mark word result }
{
    word ^ (u64::from(element) * mark)
}

// Multiplies each word by its element, and adds the word of `more`.
pub fn multiply_add(words: &mut [u64], values: &[u8], more: &[u64])
    requires { (length words.old ≡ length values.now) × (length words.old ≡ length more.now) }
    ensures { Multiplied values.now more.now words.old words.new }
{
    each_word(words, |k, w| lanes::times(w, values[k]) ^ more[k]);
}

// Sets the marked lanes of each word to 0.
pub fn clear_marked(words: &mut [u64], mark: u64)
    requires { Flags mark }
    ensures { Cleared mark words.old words.new }
{
    let keep = kept(mark);
    each_word(words, |_, w| w & keep);
}

// A word with 15 in every lane but the marked ones.
fn kept(mark: u64) -> u64
    requires { Flags mark }
    ensures { result ≡ keeping mark }
{
    FULL ^ (15 * mark)
}

// Adds to each word that of `more`.
pub fn add_words(words: &mut [u64], more: &[u64])
    requires { length words.old ≡ length more.now }
    ensures { EachWord (λ k x y. y ≡ bit_xor x (more.now ! k)) words.old words.new }
{
    each_word(words, |k, w| w ^ more[k]);
}

// Fills the words with the elements that the bytes hold, sixteen to a word.
pub fn load_words(bytes: &[u8], words: &mut [u64])
    requires { 8 * length words.old ≤ length bytes.now }
    ensures { EachWord (λ k x y. WordAt bytes.now (8 * k) y) words.old words.new }
{
    each_word(words, |k, _| lanes::word_at(bytes, 8 * k));
}

// Writes the sixteen elements of each word to the bytes, word after word; later bytes are kept.
pub fn store_words(words: &[u64], bytes: &mut [u8])
    requires { 8 * length words.now ≤ length bytes.old }
    ensures { WordsStored words.now bytes.old bytes.new }
{
    for (k, w) in words.iter().enumerate() {
        lanes::put_word(bytes, 8 * k, *w);
    }
}

// Fills `out` with the sum of the sixteen lanes of each word.
pub fn fold_into(words: &[u64], out: &mut [u8])
    requires { length words.now ≡ length out.old }
    ensures { EachWord (λ k x y. y ≡ lane_sum (words.now ! k)) out.old out.new }
{
    for (k, sum) in out.iter_mut().enumerate() {
        *sum = folded(words[k]);
    }
}

// The sum of the sixteen lanes of a word.
fn folded(w: u64) -> u8
    ensures { result ≡ lane_sum w }
{
    let a = w ^ (w >> 32);
    let b = a ^ (a >> 16);
    let c = b ^ (b >> 8);
    let d = c ^ (c >> 4);
    (d % 16) as u8
}

// Makes each word what `next` gives of its place and of itself.
fn each_word<F: Fn(usize, u64) -> u64>(words: &mut [u64], next: F)
    requires { (k x : ℕ) → k < length words.old → x < 2 ^ 64 → F.pre next k x }
    ensures { EachWord (λ k x y. (x < 2 ^ 64) × F.post next k x y) words.old words.new }
{
    for (k, w) in words.iter_mut().enumerate() {
        *w = next(k, *w);
    }
}
