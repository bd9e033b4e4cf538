// What a repetition is worked from, in one value.
ghost use Rattle.std.specs.Prelude.{◌≡◌, ◌≤◌, length};
ghost use Rattle.field.specs.Packing.{Elements};
ghost use Rattle.group.specs.Shares.{Sized, values_length};

use crate::Rep;

// What a repetition is worked from: its numbers, the salt, and its values (Δs, Δc, the challenge, t and a given α), an element to a byte.
#[derive(Clone, Copy)]
pub struct Inputs<'a> {
    pub rep: Rep,
    pub salt: &'a [u8],
    pub values: &'a [u8],
    pub ghost sized: { Sized rep },
    pub ghost short: { length salt.now ≤ 64 },
    pub ghost whole: { length values.now ≡ values_length rep },
    pub ghost elements: { Elements values.now },
}
