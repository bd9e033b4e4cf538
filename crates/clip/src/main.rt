// The clip program: checks the clip on standard input, and prints `genuine S L` or `refused R`.

#![tactic(auto)]

use std::io;

fn main(rt: HostRuntime) -> io::Result<()> {
    checking::check(rt, rt.stdin())
}
