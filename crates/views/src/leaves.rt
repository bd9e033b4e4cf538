// The parties of one repetition by the leaves of its seed tree, and what a signature gives of one of them.
ghost use Rattle.std.specs.Prelude.{◌≡◌, ◌*◌, ◌≤◌, length};

use hashes::Salted;

// The leaves of `count` parties one behind the other, `size` bytes to each, and what their commitments and tapes are hashed under.
#[derive(Clone, Copy)]
pub struct Leaves<'a, 'b> {
    pub of: Salted<'a>,
    pub seeds: &'b [u8],
    pub size: usize,
    pub count: usize,
    pub ghost small: { size ≤ 32 },
    pub ghost whole: { length seeds.now ≡ count * size },
}

// The commitment of a party that is given, since its leaf is hidden.
#[derive(Clone, Copy)]
pub struct Given<'a> {
    pub party: usize,
    pub commitment: &'a [u8],
}
