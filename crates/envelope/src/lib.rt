// The clip envelope (document 01, "The clip envelope"): a header of three bytes, then public key, signature and message, and nothing after. Writing and reading
// take any arguments: what is wrong is refused, and a refusal changes nothing. Nothing here knows what a key or a signature means beyond its size.

#![tactic(auto)]

mod fields;

ghost use Rattle.std.specs.Prelude.{◌≡◌, ◌≤◌};
ghost use Rattle.refusals.specs.Refusals.{message_limit, number_of};
ghost use Rattle.envelope.specs.Envelope.{the_version, header, write_sizes, write_ended, write_outcome, header_number, reading_of, read_outcome, places_of, lent, key_in, signature_in, message_in, placed};

use refusals::Refusal;

// The header of an envelope: its version, the number of its set and the length of its message.
#[repr(C)]
#[derive(Clone, Copy, Debug, Default, PartialEq, Eq)]
pub struct Header {
    pub version: usize,
    pub set: usize,
    pub length: usize,
}

// The version that is written, and the only one that is read.
const VERSION: usize = 1;

// The bytes of a header.
const HEADER: usize = 3;

// Where the parts of an envelope begin, and where the last ends. All are 0 on refusal.
#[repr(C)]
#[derive(Clone, Copy, Debug, Default, PartialEq, Eq)]
pub struct Places {
    pub key: usize,
    pub signature: usize,
    pub message: usize,
    pub end: usize,
}

// Writes an envelope: header, public key, signature and message over the start of the output.
#[tactic(auto, using(crate::proofs::Sizes::write_right))]
pub fn write(
    set: usize,
    public_key: &[u8],
    signature: &[u8],
    message: &[u8],
    envelope: &mut [u8],
) -> Result<(), Refusal>
    ensures { write_ended (number_of result) envelope.new ≡ write_outcome set public_key.now signature.now message.now envelope.old }
{
    write_sizes(
        set,
        public_key.len(),
        signature.len(),
        message.len(),
        envelope.len(),
    )?;
    let first = Header::written(set, message.len()).to_bytes();
    let at = HEADER + public_key.len();
    let behind = at + signature.len();
    let end = behind + message.len();
    memory::copy(&first, &mut envelope[0..HEADER]);
    memory::copy(public_key, &mut envelope[HEADER..at]);
    memory::copy(signature, &mut envelope[at..behind]);
    memory::copy(message, &mut envelope[behind..end]);
    Ok(())
}

// Reads an envelope: its header.
pub fn read(envelope: &[u8]) -> Result<Header, Refusal>
    ensures { reading_of result ≡ read_outcome envelope.now }
{
    let [first, second, third, ..] = *envelope else {
        return Err(Refusal::EnvelopeLengthWrong);
    };
    let header = Header::from_bytes([first, second, third]);
    header.check(envelope.len())?;
    Ok(header)
}

// The public key of an envelope, as that part of the caller's own bytes; on refusal the part of length 0 at the start.
#[tactic(auto, using(crate::proofs::Outcomes::told_in_order), unfolding(crate::specs::Envelope::key_in, crate::specs::Envelope::key_bytes))]
pub fn public_key_of(envelope: &[u8]) -> &[u8]
    ensures { lent result ≡ key_in (lent envelope.entry) }
{
    let places = places_of(envelope);
    &envelope[places.key..places.signature]
}

// The signature of an envelope, in the same way.
#[tactic(auto, using(crate::proofs::Outcomes::told_in_order), unfolding(crate::specs::Envelope::signature_in, crate::specs::Envelope::signature_bytes))]
pub fn signature_of(envelope: &[u8]) -> &[u8]
    ensures { lent result ≡ signature_in (lent envelope.entry) }
{
    let places = places_of(envelope);
    &envelope[places.signature..places.message]
}

// The message of an envelope, in the same way.
#[tactic(auto, using(crate::proofs::Outcomes::told_in_order), unfolding(crate::specs::Envelope::message_in, crate::specs::Envelope::message_bytes))]
pub fn message_of(envelope: &[u8]) -> &[u8]
    ensures { lent result ≡ message_in (lent envelope.entry) }
{
    let places = places_of(envelope);
    &envelope[places.message..places.end]
}

// Where the parts of an envelope begin, and where the last ends; all 0 on refusal.
pub fn places_of(envelope: &[u8]) -> Places
    ensures { result ≡ places_of envelope.now }
{
    match read(envelope) {
        Ok(header) => header.places(),
        Err(_) => Places::default(),
    }
}

// The tests of the sizes of writing, in order: 1, 3, 4, 5, 6.
#[tactic(auto, unfolding(crate::specs::Envelope::write_sizes, refusals::specs::Refusals::differs))]
fn write_sizes(
    set: usize,
    public_key: usize,
    signature: usize,
    message: usize,
    room: usize,
) -> Result<(), Refusal>
    ensures { number_of result ≡ write_sizes set public_key signature message room }
{
    if refusals::bad_set(set) {
        return Err(Refusal::NoSuchSet);
    }
    if refusals::message_limit() < message {
        return Err(Refusal::MessageTooLong);
    }
    if public_key != sets::public_key_len(set) {
        return Err(Refusal::KeyLengthWrong);
    }
    if signature != sets::signature_len(set) {
        return Err(Refusal::SignatureLengthWrong);
    }
    if room < Header::written(set, message).places().end {
        return Err(Refusal::OutputTooShort);
    }
    Ok(())
}

impl Header {
    // The header of an envelope that is written.
    fn written(set: usize, length: usize) -> Header
        ensures { result ≡ header the_version set length }
    {
        Header {
            version: VERSION,
            set,
            length,
        }
    }

    // The tests of a header and of the total length, in order: 11, 1, 3, 10.
    #[tactic(auto, unfolding(crate::specs::Envelope::header_number, refusals::specs::Refusals::differs))]
    fn check(self, total: usize) -> Result<(), Refusal>
        ensures { number_of result ≡ header_number self total }
    {
        if self.version != VERSION {
            return Err(Refusal::EnvelopeVersionWrong);
        }
        if refusals::bad_set(self.set) {
            return Err(Refusal::NoSuchSet);
        }
        if refusals::message_limit() < self.length {
            return Err(Refusal::MessageTooLong);
        }
        if total != self.places().end {
            return Err(Refusal::EnvelopeLengthWrong);
        }
        Ok(())
    }

    // Where the parts behind the header begin, and where the last ends.
    #[tactic(auto, using(crate::proofs::Sizes::public_key_small, crate::proofs::Sizes::signature_small))]
    fn places(self) -> Places
        requires { self.length ≤ message_limit }
        ensures { result ≡ placed self }
    {
        let signature = HEADER + sets::public_key_len(self.set);
        let message = signature + sets::signature_len(self.set);
        Places {
            key: HEADER,
            signature,
            message,
            end: message + self.length,
        }
    }
}
