// What the second pass works from, in one value.
ghost use Rattle.std.specs.Prelude.{◌≡◌, length};
ghost use Rattle.field.specs.Packing.{Elements};
ghost use Rattle.group.specs.Shares.{Sized};

use group::Rep;

// What the second pass works from: the repetition, the sum of all α, and the sum of every v but the hidden party's.
#[derive(Clone, Copy)]
pub struct Totals<'a> {
    pub rep: Rep,
    pub alpha: &'a [u8],
    pub given: &'a [u8],
    pub ghost sized: { Sized rep },
    pub ghost whole: { length alpha.now ≡ rep.m },
    pub ghost given_whole: { length given.now ≡ rep.m },
    pub ghost elements: { Elements given.now },
}
