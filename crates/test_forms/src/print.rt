// How the cases are named, and elements printed.
ghost use Rattle.std.specs.Prelude.{◌≤◌, length};

use crate::vectors;
use std::io;

// The name of a case.
pub fn case(rt: HostRuntime, set: usize, text: &str) -> io::Result<()> {
    print!(rt; "set {set}, {text}")
}

// The end of a line: the elements packed.
pub fn packed_line(rt: HostRuntime, elements: &[u8]) -> io::Result<()>
    requires { length elements.now ≤ 121 }
{
    let mut bytes = [0u8; 64];
    let n = vectors::packed(elements.len());
    field::pack_into(elements, &mut bytes[..n]);
    lines::bytes_line(rt, &bytes[..n])
}
