// The header of an envelope as three bytes: fields bit-packed, most significant first (document 01, "The clip envelope").
ghost use Rattle.std.specs.Prelude.{◌≡◌};
ghost use Rattle.envelope.specs.Envelope.{header_bytes, header_of};

use crate::Header;

impl Header {
    // The three bytes of a header: version and set in four bits each, the length in sixteen, most significant first.
    pub(crate) fn to_bytes(self) -> [u8; 3]
        ensures { result ≡ header_bytes self }
    {
        let first = self.version % 16 * 16 + self.set % 16;
        let upper = self.length / 256 % 256;
        let lower = self.length % 256;
        [first as u8, upper as u8, lower as u8]
    }

    // The header that three bytes hold.
    pub(crate) fn from_bytes(bytes: [u8; 3]) -> Header
        ensures { result ≡ header_of bytes }
    {
        let [first, second, third] = bytes;
        Header {
            version: usize::from(first) / 16,
            set: usize::from(first) % 16,
            length: usize::from(second) * 256 + usize::from(third),
        }
    }
}
