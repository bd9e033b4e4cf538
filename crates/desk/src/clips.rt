// The clip envelope for programs in C: writing one, the number of reading one, its header, and where its parts lie. A reference can't be handed back to C, so the parts are
// given by their places in the caller's bytes. Nothing is decided here.
ghost use Rattle.std.specs.Prelude.{◌≡◌};
ghost use Rattle.envelope.specs.Envelope.{write_ended, write_outcome, read_outcome, places_of};

use envelope::{Header, Places};

// Writes an envelope.
#[unsafe(no_mangle)]
pub extern "C" fn envelope_write(
    set: usize,
    public_key: &[u8],
    signature: &[u8],
    message: &[u8],
    envelope: &mut [u8],
) -> u8
    ensures { write_ended result envelope.new ≡ write_outcome set public_key.now signature.now message.now envelope.old }
{
    let answer = envelope::write(set, public_key, signature, message, envelope);
    refusals::number_of(&answer)
}

// Gives the number of reading an envelope.
#[unsafe(no_mangle)]
pub extern "C" fn envelope_read(envelope: &[u8]) -> u8
    ensures { result ≡ (read_outcome envelope.now).number }
{
    let answer = envelope::read(envelope);
    refusals::number_of(&answer)
}

// Gives the header of an envelope; all 0 on refusal.
#[unsafe(no_mangle)]
pub extern "C" fn envelope_header(envelope: &[u8]) -> Header
    ensures { result ≡ (read_outcome envelope.now).header }
{
    envelope::read(envelope).unwrap_or_default()
}

// Gives the places where the parts of an envelope begin, and where the last ends; all 0 on refusal.
#[unsafe(no_mangle)]
pub extern "C" fn envelope_places(envelope: &[u8]) -> Places
    ensures { result ≡ places_of envelope.now }
{
    envelope::places_of(envelope)
}
