// Numbers 0 to 15 as elements of the field of 16: products from a table of all 256 pairs, and elements packed two to a byte.
// Every argument is taken: an element counts by its low four bits, and bytes past the end of a list count as 0.
// No element chooses a branch. The product alone reads at a place that its operands choose, within one table of 256 bytes.

#![tactic(auto)]

mod table;

ghost use Rattle.std.specs.Prelude.{◌≡◌, length, get_or, ◌*◌, ◌<◌, min};
ghost use Rattle.memory.specs.Lists.{over};
ghost use Rattle.field.specs.Field.{mul};
ghost use Rattle.field.specs.ProductTable.{ProductTable};
ghost use Rattle.field.specs.Packing.{pack, packed_length, nib, unpack};

// The table of all products, for a caller that looks up many.
pub fn products() -> [u8; 256]
    ensures { ProductTable result }
{
    table::PRODUCTS
}

// The product of two elements, from the table.
pub fn product(a: u8, b: u8) -> u8
    ensures { result ≡ mul a b }
{
    let table = products();
    table[usize::from(a % 16) * 16 + usize::from(b % 16)]
}

// Packs the elements, two to a byte, over the start of `out`: as many bytes as have room. The later bytes of `out` are kept.
pub fn pack_into(elements: &[u8], out: &mut [u8])
    ensures { out.new ≡ over (pack elements.now) out.old }
{
    let n = memory::lesser(elements.len().div_ceil(2), out.len());
    for i in 0..n {
        out[i] = packed(elements, i);
    }
}

// The i-th byte of the packed elements.
fn packed(elements: &[u8], i: usize) -> u8
    requires { i * 2 < length elements.now }
    ensures { result ≡ get_or (pack elements.now) i 0 }
{
    let low = elements[i * 2] % 16;
    if i * 2 + 1 < elements.len() {
        low + 16 * (elements[i * 2 + 1] % 16)
    } else {
        low
    }
}

// Fills `out` with the first elements that the bytes hold, and with 0 past their end.
pub fn unpack_into(bytes: &[u8], out: &mut [u8])
    ensures { out.new ≡ unpack (length out.old) bytes.now }
{
    for (i, x) in out.iter_mut().enumerate() {
        *x = element(bytes, i);
    }
}

// The i-th element that the bytes hold, 0 past their end.
pub fn element(bytes: &[u8], i: usize) -> u8
    ensures { result ≡ nib bytes.now i }
{
    if bytes.len() <= i / 2 {
        return 0;
    }
    if i % 2 == 0 {
        return bytes[i / 2] % 16;
    }
    bytes[i / 2] / 16
}
