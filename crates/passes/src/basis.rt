// What the repetitions of a signature are worked from. No secret picks a branch or an address here.
ghost use Rattle.std.specs.Prelude.{◌≡◌, ◌+◌, ◌*◌, ◌≤◌, length};
ghost use Rattle.sets.specs.Sets.{S};
ghost use Rattle.biscuit.specs.Room.{Fits};

use sets::Params;

// What every repetition of a signature stands on: the set, the salt, and the elements s, t and y of the secret key.
#[derive(Clone, Copy)]
pub struct Basis<'a> {
    pub p: Params,
    pub salt: &'a [u8],
    pub secret: &'a [u8],
    pub ghost fits: { Fits p },
    pub ghost salted: { length salt.now ≡ 2 * S p },
    pub ghost whole: { length secret.now ≡ p.n + p.m + p.m },
}

// One repetition: what it stands on, and its number, counted from 1.
#[derive(Clone, Copy)]
pub struct Turn<'a> {
    pub basis: Basis<'a>,
    pub e: usize,
    pub ghost counted: { 1 ≤ e },
    pub ghost within: { e ≤ basis.p.tau },
}
