// The salt and the number of a repetition: what each hash of the parties of that repetition begins with, behind the byte of its use.
ghost use Rattle.std.specs.Prelude.{◌≤◌, length};

// The salt, of at most 64 bytes, and the number of a repetition.
#[derive(Clone, Copy)]
pub struct Salted<'a> {
    pub salt: &'a [u8],
    pub e: usize,
    pub ghost short: { length salt.now ≤ 64 },
}
