// The tests of the sizes of a call (document 01, "What the desk says"): the lowest number that applies, or 0 where all are right. What the numbers are, and what lent
// bytes hold afterwards by the number, stands in specs/.

#![tactic(auto)]

ghost use Rattle.std.specs.Prelude.{◌≡◌, ◌≤◌};
ghost use Rattle.sets.specs.Sets.{S, params_of};
ghost use Rattle.refusals.specs.Refusals.{message_limit, work_length, bad_set, bad_random, make_keys_sizes, public_half_sizes, sign_sizes, verify_sizes, refusal_number, number_of};

// Why the desk refuses, by the numbers of document 01's table.
#[derive(Clone, Copy, Debug, PartialEq, Eq)]
pub enum Refusal {
    NoSuchSet = 1,
    SeedLengthWrong = 2,
    MessageTooLong = 3,
    KeyLengthWrong = 4,
    SignatureLengthWrong = 5,
    OutputTooShort = 6,
    WorkTooShort = 7,
    KeyNotConsistent = 8,
    NotAccepted = 9,
    EnvelopeLengthWrong = 10,
    EnvelopeVersionWrong = 11,
}

impl Refusal {
    // The number that the desk says.
    pub fn number(self) -> u8
        ensures { result ≡ refusal_number self }
    {
        self as u8
    }
}

// The number that the desk says where nothing is refused.
const DONE: u8 = 0;

// The sets are numbered from 1 to this.
const LAST_SET: usize = 6;

// The longest message, in bytes.
const MESSAGE_LIMIT: usize = 32768;

// The bytes of work that a call needs.
pub const WORK: usize = 65536;

// The number that the desk says of an answer: that of the refusal, or 0.
pub fn number_of<T>(answer: &Result<T, Refusal>) -> u8
    ensures { result ≡ number_of answer.now }
{
    match answer {
        Ok(_) => DONE,
        Err(refusal) => refusal.number(),
    }
}

// The tests of the sizes of make keys, in order: 1, 2, 6, 7.
#[tactic(auto, unfolding(crate::specs::Refusals::make_keys_sizes, crate::specs::Refusals::differs, crate::specs::Refusals::work_length))]
pub fn make_keys_sizes(
    set: usize,
    circuit_seed: usize,
    secret_seed: usize,
    secret_key: usize,
    public_key: usize,
    work: usize,
) -> Result<(), Refusal>
    ensures { number_of result ≡ make_keys_sizes set circuit_seed secret_seed secret_key public_key work }
{
    if bad_set(set) {
        return Err(Refusal::NoSuchSet);
    }
    let seed = seed_len(set);
    if circuit_seed != seed || secret_seed != seed {
        return Err(Refusal::SeedLengthWrong);
    }
    if secret_key < sets::secret_key_len(set) || public_key < sets::public_key_len(set) {
        return Err(Refusal::OutputTooShort);
    }
    if work < WORK {
        return Err(Refusal::WorkTooShort);
    }
    Ok(())
}

// The tests of the sizes of public half: 1, 4, 6, 7.
#[tactic(auto, unfolding(crate::specs::Refusals::public_half_sizes, crate::specs::Refusals::differs, crate::specs::Refusals::work_length))]
pub fn public_half_sizes(
    set: usize,
    secret_key: usize,
    public_key: usize,
    work: usize,
) -> Result<(), Refusal>
    ensures { number_of result ≡ public_half_sizes set secret_key public_key work }
{
    if bad_set(set) {
        return Err(Refusal::NoSuchSet);
    }
    if secret_key != sets::secret_key_len(set) {
        return Err(Refusal::KeyLengthWrong);
    }
    if public_key < sets::public_key_len(set) {
        return Err(Refusal::OutputTooShort);
    }
    if work < WORK {
        return Err(Refusal::WorkTooShort);
    }
    Ok(())
}

// The tests of the sizes of sign: 1, 2, 3, 4, 6, 7.
#[tactic(auto, unfolding(crate::specs::Refusals::sign_sizes, crate::specs::Refusals::differs, crate::specs::Refusals::work_length))]
pub fn sign_sizes(
    set: usize,
    secret_key: usize,
    message: usize,
    random: usize,
    signature: usize,
    work: usize,
) -> Result<(), Refusal>
    ensures { number_of result ≡ sign_sizes set secret_key message random signature work }
{
    if bad_set(set) {
        return Err(Refusal::NoSuchSet);
    }
    if bad_random(seed_len(set), random) {
        return Err(Refusal::SeedLengthWrong);
    }
    if MESSAGE_LIMIT < message {
        return Err(Refusal::MessageTooLong);
    }
    if secret_key != sets::secret_key_len(set) {
        return Err(Refusal::KeyLengthWrong);
    }
    if signature < sets::signature_len(set) {
        return Err(Refusal::OutputTooShort);
    }
    if work < WORK {
        return Err(Refusal::WorkTooShort);
    }
    Ok(())
}

// The tests of the sizes of verify: 1, 3, 4, 5, 7.
#[tactic(auto, unfolding(crate::specs::Refusals::verify_sizes, crate::specs::Refusals::differs, crate::specs::Refusals::work_length))]
pub fn verify_sizes(
    set: usize,
    public_key: usize,
    message: usize,
    signature: usize,
    work: usize,
) -> Result<(), Refusal>
    ensures { number_of result ≡ verify_sizes set public_key message signature work }
{
    if bad_set(set) {
        return Err(Refusal::NoSuchSet);
    }
    if MESSAGE_LIMIT < message {
        return Err(Refusal::MessageTooLong);
    }
    if public_key != sets::public_key_len(set) {
        return Err(Refusal::KeyLengthWrong);
    }
    if signature != sets::signature_len(set) {
        return Err(Refusal::SignatureLengthWrong);
    }
    if work < WORK {
        return Err(Refusal::WorkTooShort);
    }
    Ok(())
}

// Whether a number names no set.
// Stays: a set is a number and no enum, since the C interface takes any `size_t`; `sets` answers zeros where the number names no set.
#[tactic(auto, unfolding(crate::specs::Refusals::bad_set))]
pub fn bad_set(set: usize) -> bool
    ensures { result ≡ bad_set set }
{
    set < 1 || LAST_SET < set
}

// The bytes of a seed of a set.
#[tactic(auto, unfolding(sets::specs::Sets::S))]
fn seed_len(set: usize) -> usize
    ensures { result ≡ S (params_of set) }
{
    sets::params_of(set).bits / 8
}

// Whether random bytes are neither 0 nor two seeds long.
#[tactic(auto, unfolding(crate::specs::Refusals::bad_random))]
fn bad_random(seed: usize, random: usize) -> bool
    requires { seed ≤ 32 }
    ensures { result ≡ bad_random seed random }
{
    random != 0 && random != 2 * seed
}

// The bytes of work that a call is lent and leaves zero.
#[tactic(auto, unfolding(crate::specs::Refusals::work_length))]
pub fn work_len() -> usize
    ensures { result ≡ work_length }
{
    WORK
}

// The longest message, in bytes.
pub fn message_limit() -> usize
    ensures { result ≡ message_limit }
{
    MESSAGE_LIMIT
}
