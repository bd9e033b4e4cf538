// The calls of the signing desk for programs in C: each slice is a pointer and a length, the answer a number of document 01's table. Nothing is decided here.

#![tactic(auto)]

mod clips;

ghost use Rattle.std.specs.Prelude.{◌≡◌};
ghost use Rattle.biscuit.specs.Desk.{make_keys_ended, make_keys_outcome, public_half_ended, public_half_outcome, sign_ended, sign_outcome, verify_ended, verify_outcome};

// Makes a key pair from two seeds.
#[unsafe(no_mangle)]
pub extern "C" fn biscuit_make_keys(
    set: usize,
    circuit_seed: &[u8],
    secret_seed: &[u8],
    secret_key: &mut [u8],
    public_key: &mut [u8],
    work: &mut [u8],
) -> u8
    ensures { make_keys_ended result secret_key.new public_key.new work.new ≡ make_keys_outcome set circuit_seed.now secret_seed.now secret_key.old public_key.old work.old }
{
    let answer = calls::make_keys(set, circuit_seed, secret_seed, secret_key, public_key, work);
    refusals::number_of(&answer)
}

// Gives the public half of a secret key.
#[unsafe(no_mangle)]
pub extern "C" fn biscuit_public_half(
    set: usize,
    secret_key: &[u8],
    public_key: &mut [u8],
    work: &mut [u8],
) -> u8
    ensures { public_half_ended result public_key.new work.new ≡ public_half_outcome set secret_key.now public_key.old work.old }
{
    let answer = calls::public_half(set, secret_key, public_key, work);
    refusals::number_of(&answer)
}

// Signs a message.
#[unsafe(no_mangle)]
pub extern "C" fn biscuit_sign(
    set: usize,
    secret_key: &[u8],
    message: &[u8],
    random: &[u8],
    signature: &mut [u8],
    work: &mut [u8],
) -> u8
    ensures { sign_ended result signature.new work.new ≡ sign_outcome set secret_key.now message.now random.now signature.old work.old }
{
    let answer = calls::sign(set, secret_key, message, random, signature, work);
    refusals::number_of(&answer)
}

// Verifies a signature.
#[unsafe(no_mangle)]
pub extern "C" fn biscuit_verify(
    set: usize,
    public_key: &[u8],
    message: &[u8],
    signature: &[u8],
    work: &mut [u8],
) -> u8
    ensures { verify_ended result work.new ≡ verify_outcome set public_key.now message.now signature.now work.old }
{
    let answer = calls::verify(set, public_key, message, signature, work);
    refusals::number_of(&answer)
}
