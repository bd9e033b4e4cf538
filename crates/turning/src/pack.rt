// The steps of the packing of sixteen parties: words by place turned back to words by party, then one window of sixteen elements for each word of the bytes.
ghost use Rattle.std.specs.Prelude.{◌≡◌, ◌*◌, ◌≤◌, ◌<◌, length};
ghost use Rattle.turning.specs.Parties.{PartiesPacked, TurnedBack, ElementsFrom, Window};

// Words by place to words by party, sixteen places a block, and the last sixteen places once more.
pub fn turn_back(words: &[u64], padded: &mut [u64], turned: &mut [u64])
    requires { (16 ≤ length words.now) × (length words.now ≤ 144) × (length padded.old ≡ 160) × (length turned.old ≡ 160) }
    ensures { TurnedBack words.now turned.new }
{
    let m = words.len();
    let n = (m + 15) / 16 * 16;
    lanes::copy_words(words, padded);
    lanes::copy_words(&words[m - 16..m], &mut padded[n..n + 16]);
    crate::to_lanes(&padded[0..n + 16], &mut turned[0..n + 16]);
}

// One window of sixteen elements for each word of the bytes; q and k say where the next one starts.
pub fn write_windows(words: &[u64], turned: &[u64], out: &mut [u8])
    requires { (16 ≤ length words.now) × (length words.now ≤ 144) × (8 * length words.now ≤ length out.old) × (length turned.now ≡ 160) × TurnedBack words.now turned.now }
    ensures { PartiesPacked words.now out.old out.new }
{
    let m = words.len();
    let mut q = 0;
    let mut k = 0;
    for o in 0..m {
        lanes::put_word(out, 8 * o, elements_from(words, turned, q, k));
        k += 16;
        if k >= m {
            k -= m;
            q += 1;
        }
    }
}

// The sixteen elements of party q from element k on, and where they end the first ones of the next party.
fn elements_from(words: &[u64], turned: &[u64], q: usize, k: usize) -> u64
    requires { (16 ≤ length words.now) × (length words.now ≤ 144) × (length turned.now ≡ 160) × TurnedBack words.now turned.now × (q < 16) × (k < length words.now) }
    ensures { ElementsFrom words.now q k result }
{
    let m = words.len();
    if k + 16 < m {
        let b = k / 16 * 16;
        return window(turned[b + q], turned[b + 16 + q], k % 16);
    }
    let n = (m + 15) / 16 * 16;
    window(turned[n + q], turned[q + 1], k + 16 - m)
}

// The lanes of x from lane s on, and then those of y.
fn window(x: u64, y: u64, s: usize) -> u64
    requires { s < 16 }
    ensures { Window x y s result }
{
    (x >> (4 * s)) ^ ((y << (60 - 4 * s)) << 4)
}
