// The four stages of the turn of sixteen words: at each, the lanes and words whose numbers differ in one bit change places.
ghost use Rattle.std.specs.Prelude.{◌≡◌, length};
ghost use Rattle.turning.specs.Stages.{Stage, Mixed};

// The lanes whose number has no bit 8, 4, 2 or 1.
pub const EVEN8: u64 = 0x00000000ffffffff;

pub const EVEN4: u64 = 0x0000ffff0000ffff;

pub const EVEN2: u64 = 0x00ff00ff00ff00ff;

pub const EVEN1: u64 = 0x0f0f0f0f0f0f0f0f;

// Lanes and words that differ by D change places, in eight pairs of words; `even` are the lanes whose number has no bit D.
pub fn stage<const D: usize>(x: &[u64], even: u64) -> [u64; 16]
    requires { (length x.now ≡ 16) × Stage D even }
    ensures { Mixed D x.now result }
{
    let mut y = [0; 16];
    for p in 0..8 {
        let j = p / D * 2 * D + p % D;
        let moved = ((x[j] >> (4 * D)) ^ x[j + D]) & even;
        y[j] = x[j] ^ (moved << (4 * D));
        y[j + D] = x[j + D] ^ moved;
    }
    y
}
