// Copy, clear and compare lent bytes. Nothing here knows what the bytes mean.
// No byte chooses a branch or an address: how long a call takes goes by the lengths alone.

#![tactic(auto)]

ghost use Rattle.std.specs.Prelude.{◌≡◌, ◌<◌, min, length, replicate};
ghost use Rattle.memory.specs.Lists.{over, same};

// Writes `src` over the start of `dst`, as much of it as has room; the later bytes of `dst` are kept.
pub fn copy<T: Copy>(src: &[T], dst: &mut [T])
    ensures { dst.new ≡ over src.now dst.old }
{
    let n = lesser(src.len(), dst.len());
    for i in 0..n {
        dst[i] = src[i];
    }
}

// The lesser of two numbers.
pub fn lesser(a: usize, b: usize) -> usize
    ensures { result ≡ min a b }
{
    a.min(b)
}

// Sets every byte of `dst` to 0.
pub fn clear(dst: &mut [u8])
    ensures { dst.new ≡ replicate (length dst.old) 0 }
{
    dst.fill(0);
}

// Whether two lent parts hold the same bytes. All of them are read, wherever the first difference lies.
pub fn equal(a: &[u8], b: &[u8]) -> bool
    ensures { result ≡ same a.now b.now }
{
    if a.len() != b.len() {
        return false;
    }
    let mut difference: u8 = 0;
    for (x, y) in a.iter().zip(b) {
        difference |= x ^ y;
    }
    difference == 0
}

// A byte as a number or a place.
pub fn wide(b: u8) -> usize
    ensures { (result ≡ b) × (result < 256) }
{
    usize::from(b)
}
