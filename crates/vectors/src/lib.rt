// Vectors of elements that lie packed in bytes from any half byte on: read to an element a byte, and written back from there.
// No element chooses a branch or an address; the place and the lengths do, and they are public.

#![tactic(auto)]

ghost use Rattle.std.specs.Prelude.{◌≡◌, ◌+◌, ◌*◌, ◌≤◌, ◌<◌, length};
ghost use Rattle.vectors.specs.Elements.{elements_at, elements_put, HalfPut, ReadTo};
ghost use Rattle.field.specs.Packing.{unpack};

// Fills `out` with the elements from the half byte `at` on, and with 0 past the end of the bytes.
pub fn read_elements(bytes: &[u8], at: usize, out: &mut [u8])
    requires { (at ≤ 65536) × (length out.old ≤ 65536) }
    ensures { out.new ≡ elements_at bytes.now at (length out.old) }
{
    let i = read_first(bytes, at, out);
    let f = read_whole(bytes, at, i, out);
    read_rest(bytes, at, f, out);
}

// The first element, where it is the second of its byte: gives how many are read then.
fn read_first(bytes: &[u8], at: usize, out: &mut [u8]) -> usize
    ensures { (result ≤ length out.old) × (ReadTo bytes.now at result out.new) }
{
    if at % 2 == 0 {
        return 0;
    }
    if out.len() == 0 {
        return 0;
    }
    out[0] = field::element(bytes, at);
    1
}

// Both elements of each whole byte, behind i elements that are read: gives how many are read then.
fn read_whole(bytes: &[u8], at: usize, i: usize, out: &mut [u8]) -> usize
    requires { (at ≤ 65536) × (i ≤ length out.old) × (length out.old ≤ 65536) }
    ensures { (result ≤ length out.old) × (ReadTo bytes.now at i out.old → ReadTo bytes.now at result out.new) }
{
    let a = (at + i) / 2;
    if (at + i) % 2 == 1 {
        return i;
    }
    if bytes.len() <= a {
        return i;
    }
    let w = memory::lesser((out.len() - i) / 2, bytes.len() - a);
    let e = a + w;
    let f = i + w * 2;
    halves(&bytes[a..e], &mut out[i..f]);
    f
}

// Both elements of every byte: what `field::unpack_into` gives, by whole bytes and with no test for each element, for speed (docs/PERFORMANCE.md).
fn halves(bytes: &[u8], out: &mut [u8])
    requires { length out.old ≡ length bytes.now * 2 }
    ensures { out.new ≡ unpack (length out.old) bytes.now }
{
    for (k, b) in bytes.iter().enumerate() {
        let j = k * 2;
        out[j] = b % 16;
        out[j + 1] = b / 16;
    }
}

// The elements behind f elements that are read.
fn read_rest(bytes: &[u8], at: usize, f: usize, out: &mut [u8])
    requires { (at ≤ 65536) × (f ≤ length out.old) × (length out.old ≤ 65536) }
    ensures { ReadTo bytes.now at f out.old → ReadTo bytes.now at (length out.old) out.new }
{
    for i in f..out.len() {
        out[i] = field::element(bytes, at + i);
    }
}

// The half bytes from `at` on become the elements; every other half byte stays.
pub fn write_elements(elements: &[u8], at: usize, bytes: &mut [u8])
    requires { (at + length elements.now ≤ 2 * length bytes.old) × (length bytes.old ≤ 65536) }
    ensures { bytes.new ≡ elements_put elements.now at bytes.old }
{
    for (i, x) in elements.iter().enumerate() {
        put_element(*x, at + i, bytes);
    }
}

// The j-th half byte becomes the element x.
pub fn put_element(x: u8, j: usize, bytes: &mut [u8])
    requires { j < 2 * length bytes.old }
    ensures { HalfPut x j bytes.old bytes.new }
{
    let b = bytes[j / 2];
    bytes[j / 2] = if j % 2 == 0 {
        b / 16 * 16 + x % 16
    } else {
        b % 16 + x % 16 * 16
    };
}
