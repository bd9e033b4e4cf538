// What verifying is given, and one of its repetitions.
ghost use Rattle.std.specs.Prelude.{◌≡◌, ◌≤◌, length};
ghost use Rattle.sets.specs.Sets.{public_key_length, signature_length};
ghost use Rattle.biscuit.specs.Room.{Fits};

use sets::Params;

// The set, the public key, the signature, and the byte of the hidden party of each repetition.
#[derive(Clone, Copy)]
pub struct Claim<'a> {
    pub p: Params,
    pub pk: &'a [u8],
    pub signature: &'a [u8],
    pub parties: &'a [u8],
    pub ghost fits: { Fits p },
    pub ghost whole_key: { length pk.now ≡ public_key_length p },
    pub ghost whole_signature: { length signature.now ≡ signature_length p },
    pub ghost whole_parties: { length parties.now ≡ p.tau },
}

// Repetition e of a claim; they count from 1.
#[derive(Clone, Copy)]
pub struct Repetition<'a> {
    pub claim: Claim<'a>,
    pub e: usize,
    pub ghost from_one: { 1 ≤ e },
    pub ghost within: { e ≤ claim.p.tau },
}
