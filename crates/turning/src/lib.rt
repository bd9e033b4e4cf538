// Words by party and words by place: the turn of sixteen words of sixteen lanes, packed vectors to lanes, and lanes back to packed bytes.
// No element chooses a branch or an address.

#![tactic(auto)]

mod pack;
mod turn;

ghost use Rattle.std.specs.Prelude.{◌≡◌, ◌*◌, ◌%◌, ◌≤◌, length};
ghost use Rattle.turning.specs.Parties.{PartiesPacked};
ghost use Rattle.turning.specs.Turns.{Transposed, Turned};

// Packed vectors to lanes: each group of sixteen words, one of each party, is turned, so that a word has one element of each party.
pub fn to_lanes(tapes: &[u64], out: &mut [u64])
    requires { (length tapes.now ≡ length out.old) × (length tapes.now % 16 ≡ 0) }
    ensures { Turned tapes.now out.new }
{
    for w in 0..tapes.len() / 16 {
        transpose(&tapes[16 * w..16 * w + 16], &mut out[16 * w..16 * w + 16]);
    }
}

// The turn of sixteen words: lane i of word j of y becomes lane j of word i of x.
pub fn transpose(x: &[u64], y: &mut [u64])
    requires { (length x.now ≡ 16) × (length y.old ≡ 16) }
    ensures { Transposed x.now y.new }
{
    let a = turn::stage::<8>(x, turn::EVEN8);
    let b = turn::stage::<4>(&a, turn::EVEN4);
    let c = turn::stage::<2>(&b, turn::EVEN2);
    let d = turn::stage::<1>(&c, turn::EVEN1);
    lanes::copy_words(&d, y);
}

// Lanes back to packed bytes: the sixteen vectors, one in each lane, packed together in party order. Later bytes are kept.
pub fn pack_parties(words: &[u64], out: &mut [u8])
    requires { (16 ≤ length words.now) × (length words.now ≤ 144) × (8 * length words.now ≤ length out.old) }
    ensures { PartiesPacked words.now out.old out.new }
{
    let mut padded = [0u64; 160];
    let mut turned = [0u64; 160];
    pack::turn_back(words, &mut padded, &mut turned);
    pack::write_windows(words, &turned, out);
}
