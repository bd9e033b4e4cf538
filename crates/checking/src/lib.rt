// What the clip program does with an open file: it reads one envelope, at most 65,536 bytes of it, and prints one line. What the line says is decided and promised in crate
// `report`; no contract can say what is read from a file or written to one.

#![tactic(auto)]

ghost use Rattle.std.specs.Prelude.{◌≡◌, ◌≤◌, length, IfOk};
ghost use Rattle.report.specs.Report.{input_limit};

use report::{INPUT, ROOM};
use std::io;
use std::io::Read;

// Checks the clip in an open file, and prints its line.
pub fn check<R: Read + Drop>(rt: HostRuntime, mut file: R) -> io::Result<()> {
    let mut input = [0u8; INPUT];
    let n = read(&mut file, &mut input)?;
    let mut line = [0u8; ROOM];
    let count = report::clip_line(&input, n, &mut line);
    rt.write_all(&line[..count])
}

// Reads as much of a file as the program reads, and gives how many bytes that was.
// Stays: a loop over `read`, since `read_to_end` fills a `Vec` and the project has no heap.
fn read<R: Read>(file: &mut R, input: &mut [u8]) -> io::Result<usize>
    requires { length input.old ≡ input_limit }
    ensures { IfOk result (λ n. n ≤ length input.new) }
{
    let mut done = 0;
    while done < input.len() {
        let n = file.read(&mut input[done..])?;
        if n == 0 {
            break;
        }
        done += n;
    }
    Ok(done)
}
