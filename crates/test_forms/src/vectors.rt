// Vectors that are packed one after another, and the hash of their elements.
ghost use Rattle.std.specs.Prelude.{◌≤◌};

use sponge::Sponge;

// Absorbs the elements of `count` vectors of n elements, packed one after another from the byte `from` on.
pub fn absorb_vectors(hash: Sponge, bytes: &[u8], from: usize, n: usize, count: usize) -> Sponge
    requires { (n ≤ 128) × (count ≤ 128) × (from ≤ 64) }
{
    let width = packed(n);
    let mut hash = hash;
    for k in 0..count {
        hash = absorb_vector(hash, bytes, from + k * width, n);
    }
    hash
}

// Absorbs the n elements of the vector that is packed from the byte `at` on, an element to a byte; nothing where the bytes end before it does.
pub fn absorb_vector(hash: Sponge, bytes: &[u8], at: usize, n: usize) -> Sponge
    requires { (n ≤ 128) × (at ≤ 65536) }
{
    let end = at + packed(n);
    if bytes.len() < end {
        return hash;
    }
    let mut vector = [0u8; 128];
    field::unpack_into(&bytes[at..end], &mut vector[..n]);
    hash.absorb(&vector[..n])
}

// The bytes that n elements take packed.
pub fn packed(n: usize) -> usize
    requires { n ≤ 128 }
    ensures { result ≤ 64 }
{
    n.div_ceil(2)
}
