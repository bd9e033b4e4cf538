// The calls of the signing desk (document 01, "What the desk says"). Each takes any arguments: sizes are tested first, and a refusal changes nothing. What a call promises,
// its number and every byte that it was lent, is one equation. Which number comes back is told to the caller; nothing else that is secret chooses a branch here.

#![tactic(auto)]

ghost use Rattle.std.specs.Prelude.{◌≡◌, ◌≤◌, length};
ghost use Rattle.refusals.specs.Refusals.{work_length, cleared, number_of};
ghost use Rattle.biscuit.specs.Desk.{make_keys_ended, make_keys_outcome, public_half_ended, public_half_outcome, sign_ended, sign_outcome, verify_ended, verify_outcome};

use refusals::Refusal;

// Make keys: fills two outputs with the keys of two seeds.
#[tactic(auto, using(refusals::proofs::Refusals::make_keys_right))]
pub fn make_keys(
    set: usize,
    circuit_seed: &[u8],
    secret_seed: &[u8],
    secret_key: &mut [u8],
    public_key: &mut [u8],
    work: &mut [u8],
) -> Result<(), Refusal>
    ensures { make_keys_ended (number_of result) secret_key.new public_key.new work.new ≡ make_keys_outcome set circuit_seed.now secret_seed.now secret_key.old public_key.old work.old }
{
    refusals::make_keys_sizes(
        set,
        circuit_seed.len(),
        secret_seed.len(),
        secret_key.len(),
        public_key.len(),
        work.len(),
    )?;
    let p = sets::params_of(set);
    let a = sets::secret_key_len(set);
    let b = sets::public_key_len(set);
    let n = refusals::work_len();
    keys::make_keys(
        p,
        circuit_seed,
        secret_seed,
        &mut secret_key[0..a],
        &mut public_key[0..b],
        &mut work[0..n],
    );
    clear_work(work);
    Ok(())
}

// Public half: fills the output with the public half of a consistent secret key.
#[tactic(auto, using(refusals::proofs::Refusals::public_half_right))]
pub fn public_half(
    set: usize,
    secret_key: &[u8],
    public_key: &mut [u8],
    work: &mut [u8],
) -> Result<(), Refusal>
    ensures { public_half_ended (number_of result) public_key.new work.new ≡ public_half_outcome set secret_key.now public_key.old work.old }
{
    refusals::public_half_sizes(set, secret_key.len(), public_key.len(), work.len())?;
    let p = sets::params_of(set);
    let b = sets::public_key_len(set);
    let n = refusals::work_len();
    let consistent = keys::public_half(p, secret_key, &mut public_key[0..b], &mut work[0..n]);
    clear_work(work);
    if consistent {
        Ok(())
    } else {
        Err(Refusal::KeyNotConsistent)
    }
}

// Sign: fills the output with the signature of the message by a consistent secret key.
#[tactic(auto, using(refusals::proofs::Refusals::sign_right))]
pub fn sign(
    set: usize,
    secret_key: &[u8],
    message: &[u8],
    random: &[u8],
    signature: &mut [u8],
    work: &mut [u8],
) -> Result<(), Refusal>
    ensures { sign_ended (number_of result) signature.new work.new ≡ sign_outcome set secret_key.now message.now random.now signature.old work.old }
{
    refusals::sign_sizes(
        set,
        secret_key.len(),
        message.len(),
        random.len(),
        signature.len(),
        work.len(),
    )?;
    let p = sets::params_of(set);
    let a = sets::signature_len(set);
    let n = refusals::work_len();
    let signed = signing::sign(
        p,
        secret_key,
        message,
        random,
        &mut signature[0..a],
        &mut work[0..n],
    );
    clear_work(work);
    if signed {
        Ok(())
    } else {
        Err(Refusal::KeyNotConsistent)
    }
}

// Verify: `Ok` where the signature is accepted for the message under the public key.
#[tactic(auto, using(refusals::proofs::Refusals::verify_right))]
pub fn verify(
    set: usize,
    public_key: &[u8],
    message: &[u8],
    signature: &[u8],
    work: &mut [u8],
) -> Result<(), Refusal>
    ensures { verify_ended (number_of result) work.new ≡ verify_outcome set public_key.now message.now signature.now work.old }
{
    refusals::verify_sizes(
        set,
        public_key.len(),
        message.len(),
        signature.len(),
        work.len(),
    )?;
    let p = sets::params_of(set);
    let n = refusals::work_len();
    let accepted = verifying::accepts(p, public_key, message, signature, &mut work[0..n]);
    clear_work(work);
    if accepted {
        Ok(())
    } else {
        Err(Refusal::NotAccepted)
    }
}

// Sets the bytes of work that a call uses to 0.
fn clear_work(work: &mut [u8])
    requires { work_length ≤ length work.old }
    ensures { work.new ≡ cleared work.old }
{
    let n = refusals::work_len();
    memory::clear(&mut work[0..n]);
}
