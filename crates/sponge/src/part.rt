// A part of a block: bytes xored into the lanes of a state from a place on, and bytes given from there. Whole words go by lanes.
ghost use Rattle.std.specs.Prelude.{◌≡◌, ◌+◌, ◌-◌, ◌*◌, ◌/◌, ◌%◌, ◌≤◌, ◌<◌, min, length};
ghost use Rattle.sponge.specs.Sponge.{rate, little, byte_at};
ghost use Rattle.sponge.specs.Steps.{xor_byte, xor_bytes, bytes_from};

// The bytes of a block: 6.2.
pub const RATE: usize = 136;

// Xors the bytes into the lanes from byte `at` of the state on: those before a whole lane, whole words, and those left over.
pub fn xor(lanes: &mut [u64; 25], at: usize, bytes: &[u8])
    requires { at + length bytes.now ≤ rate }
    ensures { lanes.new ≡ xor_bytes lanes.old at bytes.now }
{
    let n = bytes.len();
    if n == RATE {
        xor_words(lanes, 0, bytes);
        return;
    }
    let (h, m) = lanes_in(at, n);
    xor_few(lanes, at, &bytes[..h]);
    xor_words(lanes, (at + h) / 8, &bytes[h..m]);
    xor_few(lanes, at + m, &bytes[m..]);
}

// Which of n bytes from the place `at` on make up whole lanes: from where, and up to where.
fn lanes_in(at: usize, n: usize) -> (usize, usize)
    ensures from { result.0 ≡ min ((8 - at % 8) % 8) n }
    ensures to { result.1 ≡ result.0 + (n - result.0) / 8 * 8 }
{
    let from = memory::lesser((8 - at % 8) % 8, n);
    (from, from + (n - from) / 8 * 8)
}

// Xors the bytes into the lane that holds byte `at` of the state.
fn xor_few(lanes: &mut [u64; 25], at: usize, bytes: &[u8])
    requires { (at ≤ rate) × (at % 8 + length bytes.now ≤ 8) }
    ensures { lanes.new ≡ xor_bytes lanes.old at bytes.now }
{
    lanes[at / 8] ^= load(bytes) << (8 * (at % 8));
}

// Xors one byte into the lane that holds byte `at` of the state.
pub fn xor_byte(lanes: &mut [u64; 25], at: usize, b: u8)
    requires { at < rate }
    ensures { lanes.new ≡ xor_byte lanes.old at b }
{
    lanes[at / 8] ^= u64::from(b) << (8 * (at % 8));
}

// The number of at most eight bytes.
fn load(bytes: &[u8]) -> u64
    requires { length bytes.now ≤ 8 }
    ensures { result ≡ little bytes.now }
{
    let mut word = 0;
    for (i, b) in bytes.iter().enumerate() {
        word ^= u64::from(*b) << (8 * i);
    }
    word
}

// Xors whole words into the lanes from lane k on.
pub fn xor_words(lanes: &mut [u64; 25], k: usize, bytes: &[u8])
    requires { (8 * k + length bytes.now ≤ rate) × (length bytes.now % 8 ≡ 0) }
    ensures { lanes.new ≡ xor_bytes lanes.old (8 * k) bytes.now }
{
    let (words, _) = bytes.as_chunks::<8>();
    for (j, word) in words.iter().enumerate() {
        lanes[k + j] ^= u64::from_le_bytes(*word);
    }
}

// Fills `out` with the bytes of the state from byte `at` on: those before a whole lane, whole words, and those left over.
pub fn give(lanes: &[u64; 25], at: usize, out: &mut [u8])
    requires { at + length out.old ≤ rate }
    ensures { out.new ≡ bytes_from lanes.now at (length out.old) }
{
    let n = out.len();
    if n == RATE {
        give_words(lanes, 0, out);
        return;
    }
    let (h, m) = lanes_in(at, n);
    give_bytes(lanes, at, &mut out[..h]);
    give_words(lanes, (at + h) / 8, &mut out[h..m]);
    give_bytes(lanes, at + m, &mut out[m..]);
}

// Fills `out` byte by byte.
fn give_bytes(lanes: &[u64; 25], at: usize, out: &mut [u8])
    requires { at + length out.old ≤ rate }
    ensures { out.new ≡ bytes_from lanes.now at (length out.old) }
{
    for (i, b) in out.iter_mut().enumerate() {
        *b = byte(lanes, at + i);
    }
}

// Byte `at` of the state.
fn byte(lanes: &[u64; 25], at: usize) -> u8
    requires { at < rate }
    ensures { result ≡ byte_at lanes.now at }
{
    ((lanes[at / 8] >> (8 * (at % 8))) % 256) as u8
}

// Fills `out` with whole words, from lane k on.
fn give_words(lanes: &[u64; 25], k: usize, out: &mut [u8])
    requires { (8 * k + length out.old ≤ rate) × (length out.old % 8 ≡ 0) }
    ensures { out.new ≡ bytes_from lanes.now (8 * k) (length out.old) }
{
    for j in 0..out.len() / 8 {
        let word = lanes[k + j].to_le_bytes();
        out[8 * j..8 * j + 8].copy_from_slice(&word);
    }
}
