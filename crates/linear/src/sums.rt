// The sums that the bytes of a row pick from: of the multiples of two words, for every byte of two coefficients.
ghost use Rattle.std.specs.Prelude.{◌≡◌, ◌+◌, ◌*◌, ◌≤◌, ◌<◌, length, get_or};
ghost use Rattle.linear.specs.Rows.{PairsOf, PairsFrom, Spread};

use crate::word::Word;

// The sums for `count` pairs of words from the place `at` on; past the end of the words stands 0.
pub fn fill<W: Word>(words: &[W], at: usize, count: usize, sums: &mut [W])
    requires { (count * 256 ≤ length sums.old) × (at < 8192) }
    ensures { PairsFrom W.view words.now at count sums.new }
{
    for c in 0..count {
        let i = at + c * 2;
        fill_one(
            word_or_zero(words, i),
            word_or_zero(words, i + 1),
            &mut sums[c * 256..c * 256 + 256],
        );
    }
}

// The word at a place, 0 past the end.
fn word_or_zero<W: Word>(words: &[W], i: usize) -> W
    ensures { result ≡ get_or words.now i W.view.zero }
{
    words.get(i).copied().unwrap_or(W::zero())
}

// The sums of the multiples of two words, for every byte: those of `low` alone, then twice as many at each step.
fn fill_one<W: Word>(low: W, high: W, out: &mut [W])
    requires { length out.old ≡ 256 }
    ensures { PairsOf W.view low high out.new }
{
    let mut multiples = [W::zero(); 16];
    high.multiples(&mut multiples);
    low.multiples(&mut out[0..16]);
    spread(out, 16, multiples[1]);
    spread(out, 32, multiples[2]);
    spread(out, 64, multiples[4]);
    spread(out, 128, multiples[8]);
}

// The sums of each of the first n words and one word, written behind these.
fn spread<W: Word>(out: &mut [W], n: usize, w: W)
    requires { n + n ≤ length out.old }
    ensures { Spread W.view n w out.old out.new }
{
    for k in 0..n {
        out[n + k] = out[k].plus(w);
    }
}
