// A level of the seed tree of one repetition: what each step down the tree is made with.
ghost use Rattle.std.specs.Prelude.{◌≤◌};

use hashes::Salted;

// Level k of the tree that hashes under this salt, with s bytes to a seed.
#[derive(Clone, Copy)]
pub struct Level<'a> {
    pub of: Salted<'a>,
    pub k: usize,
    pub s: usize,
    pub ghost small: { s ≤ 32 },
}
