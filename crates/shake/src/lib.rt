// SHAKE256 as one call, for programs in C and for the benchmark.

#![tactic(auto)]

ghost use Rattle.std.specs.Prelude.{◌≡◌, length};
ghost use Rattle.sponge.specs.Sponge.{shake256};

// Fills `out` with SHAKE256 of the message.
#[unsafe(no_mangle)]
pub extern "C" fn biscuit_shake256(message: &[u8], out: &mut [u8])
    ensures { out.new ≡ shake256 message.now (length out.old) }
{
    sponge::shake256(message, out);
}
