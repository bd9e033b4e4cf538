// Sixteen parties of one repetition, each in its lane of words: their tapes, their shares with the corrections, and from these α, y and z·ε + c.
// No secret picks a branch or an address; the numbers of the repetition, of the group and of the hidden party are public.

#![tactic(auto)]

mod inputs;
mod places;

ghost use Rattle.std.specs.Prelude.{◌≡◌, List, ℕ, suc, ◌+◌, ◌*◌, ◌≤◌, ◌<◌, length};
ghost use Rattle.memory.specs.Lists.{put};
ghost use Rattle.sponge.specs.Sponge.{shake256};
ghost use Rattle.hashes.specs.Hashes.{tape_fields};
ghost use Rattle.forms.specs.Room.{circuit_length, circuit_in};
ghost use Rattle.linear.specs.Forms.{HoldsForms};
ghost use Rattle.parties.specs.Parties.{Share, corrected};
ghost use Rattle.parties.specs.Repetition.{tape_length};
ghost use Rattle.group.specs.Shares.{Sized, delta_s, delta_c, tapes_of, HoldsTapes, TapeStored, HoldsShares, share_at, HoldsParts, HoldsAnswers, AlphaWords, RestWords};

use hashes::Salted;
pub use inputs::Inputs;
use places::{helper_at, mask_at, table};

// A repetition: S bytes to a seed, n variables, m equations, its number e, the hidden party or 0, and how many groups of sixteen parties it has.
// Stays: `hidden` is 0 where no party is hidden, and no Option: the definitions of HoldsAnswers, AlphaWords and RestWords, which may not change, compare it with a party's number, and no party has the number 0.
#[derive(Clone, Copy)]
pub struct Rep {
    pub s: usize,
    pub n: usize,
    pub m: usize,
    pub e: usize,
    pub hidden: usize,
    pub groups: usize,
}

// The bytes that hold any tape, and the words that hold sixteen.
const TAPE: usize = 184;

const TAPES: usize = 368;

// α, y and z·ε + c of the sixteen parties of group g.
// Stays: x, y and z are slices and no struct of three: `linear` and `marks` write them one by one, so a struct of three `&mut` would be built and taken apart at each call, and is no plainer.
pub fn group(
    of: Inputs<'_>,
    g: usize,
    leaves: &[u8],
    circuit: &[u8],
    x: &mut [u64],
    y: &mut [u64],
    z: &mut [u64],
)
    requires { (g < of.rep.groups) × (length leaves.now ≡ 16 * of.rep.groups * of.rep.s) × (length circuit.now ≡ circuit_length of.rep.n of.rep.m) × (length x.old ≡ of.rep.m) × (length y.old ≡ of.rep.m) × (length z.old ≡ of.rep.m) }
    ensures { let rep = of.entry.rep in let values = of.entry.values.now in HoldsAnswers rep g (circuit_in rep.n rep.m circuit.now) values (λ q. share_at rep of.entry.salt.now leaves.now values (16 * g + q)) x.new y.new z.new }
{
    let n = of.rep.n;
    let mut words = [0u64; TAPES];
    sixteen_shares(of, g, leaves, &mut words);
    linear::linear_forms(circuit, n, of.rep.m, &words[0..n], x, y, z);
    after_forms(of, g, circuit, &words, x, y, z);
}

// The same of two groups together: group g of one repetition by `leaves`, to x, y and z, and group h of another by `others`, to x2, y2 and z2.
pub fn two_groups(
    of: Inputs<'_>,
    g: usize,
    leaves: &[u8],
    other: Inputs<'_>,
    h: usize,
    others: &[u8],
    circuit: &[u8],
    x: &mut [u64],
    y: &mut [u64],
    z: &mut [u64],
    x2: &mut [u64],
    y2: &mut [u64],
    z2: &mut [u64],
)
    requires { (other.rep.n ≡ of.rep.n) × (other.rep.m ≡ of.rep.m) × (g < of.rep.groups) × (h < other.rep.groups) × (length leaves.now ≡ 16 * of.rep.groups * of.rep.s) × (length others.now ≡ 16 * other.rep.groups * other.rep.s) × (length circuit.now ≡ circuit_length of.rep.n of.rep.m) × (length x.old ≡ of.rep.m) × (length y.old ≡ of.rep.m) × (length z.old ≡ of.rep.m) × (length x2.old ≡ of.rep.m) × (length y2.old ≡ of.rep.m) × (length z2.old ≡ of.rep.m) }
    ensures first { let rep = of.entry.rep in let values = of.entry.values.now in HoldsAnswers rep g (circuit_in rep.n rep.m circuit.now) values (λ q. share_at rep of.entry.salt.now leaves.now values (16 * g + q)) x.new y.new z.new }
    ensures second { let rep = other.entry.rep in let values = other.entry.values.now in HoldsAnswers rep h (circuit_in rep.n rep.m circuit.now) values (λ q. share_at rep other.entry.salt.now others.now values (16 * h + q)) x2.new y2.new z2.new }
{
    let n = of.rep.n;
    let mut words = [0u64; TAPES];
    let mut second = [0u64; TAPES];
    sixteen_shares(of, g, leaves, &mut words);
    sixteen_shares(other, h, others, &mut second);
    linear::linear_two(
        circuit,
        n,
        of.rep.m,
        &words[0..n],
        &second[0..n],
        x,
        y,
        z,
        x2,
        y2,
        z2,
    );
    after_forms(of, g, circuit, &words, x, y, z);
    after_forms(other, h, circuit, &second, x2, y2, z2);
}

// The shares of the sixteen parties of group g with the corrections, in lanes.
fn sixteen_shares(of: Inputs<'_>, g: usize, leaves: &[u8], words: &mut [u64])
    requires { (g < of.rep.groups) × (length leaves.now ≡ 16 * of.rep.groups * of.rep.s) × (length words.old ≡ TAPES) }
    ensures { let rep = of.entry.rep in HoldsShares rep (λ q. share_at rep of.entry.salt.now leaves.now of.entry.values.now (16 * g + q)) words.new }
{
    let mut tapes = [0u64; TAPES];
    sixteen_tapes(of, g, leaves, &mut tapes);
    turning::to_lanes(&tapes, words);
    correct(of, g, words);
}

// The tapes of the sixteen parties of group g, word by word across the parties.
fn sixteen_tapes(of: Inputs<'_>, g: usize, leaves: &[u8], tapes: &mut [u64])
    requires { (g < of.rep.groups) × (length leaves.now ≡ 16 * of.rep.groups * of.rep.s) × (length tapes.old ≡ TAPES) }
    ensures { HoldsTapes (tapes_of of.entry.rep g of.entry.salt.now leaves.now) tapes.new }
{
    let s = of.rep.s;
    for q in 0..16 {
        let p = 16 * g + q;
        let a = p * s;
        one_tape(of, p + 1, &leaves[a..a + s], q, tapes);
    }
}

// The tape of party i, as lane q.
fn one_tape(of: Inputs<'_>, i: usize, seed: &[u8], q: usize, tapes: &mut [u64])
    requires { (q < 16) × (length seed.now ≤ 32) × (length tapes.old ≡ TAPES) }
    ensures { let rep = of.entry.rep in TapeStored q (shake256 (tape_fields of.entry.salt.now rep.e i seed.now) (tape_length rep.n rep.m)) tapes.old tapes.new }
{
    let mut bytes = [0u8; TAPE];
    fill(of, i, seed, &mut bytes);
    scatter(&bytes, q, tapes);
}

// The tape of party i over the start of `bytes`.
fn fill(of: Inputs<'_>, i: usize, seed: &[u8], bytes: &mut [u8])
    requires { (length seed.now ≤ 32) × (length bytes.old ≡ TAPE) }
    ensures { let rep = of.entry.rep in bytes.new ≡ put bytes.old 0 (shake256 (tape_fields of.entry.salt.now rep.e i seed.now) (tape_length rep.n rep.m)) }
{
    let n = of.rep.n.div_ceil(2) + 2 * of.rep.m.div_ceil(2);
    Salted {
        salt: of.salt,
        e: of.rep.e,
    }
    .tape(i, seed, &mut bytes[0..n]);
}

// The words of a tape, sixteen words apart.
fn scatter(bytes: &[u8], q: usize, tapes: &mut [u64])
    requires { (q < 16) × (length bytes.now ≡ TAPE) × (length tapes.old ≡ TAPES) }
    ensures { TapeStored q bytes.now tapes.old tapes.new }
{
    for w in 0..TAPE / 8 {
        tapes[16 * w + q] = lanes::word_at(bytes, 8 * w);
    }
}

// Party 1 alone adds the corrections.
fn correct(of: Inputs<'_>, g: usize, words: &mut [u64])
    requires { (g < 256) × (length words.old ≡ TAPES) }
    ensures { let rep = of.entry.rep in let values = of.entry.values.now in (share : ℕ → Share) → HoldsShares rep share words.old → HoldsShares rep (λ q. corrected (delta_s rep values) (delta_c rep values) (suc (16 * g + q)) (share q)) words.new }
{
    let n = of.rep.n;
    let d = n + of.rep.m;
    let c = helper_at(of.rep);
    let e = c + of.rep.m;
    let first = marks::mark(g, 1);
    marks::add_marked(&mut words[0..n], &of.values[0..n], first);
    marks::add_marked(&mut words[c..e], &of.values[n..d], first);
}

// α, y and z·ε + c of sixteen parties from their shares, once x, y and z hold the forms without constants.
fn after_forms(
    of: Inputs<'_>,
    g: usize,
    circuit: &[u8],
    words: &[u64],
    x: &mut [u64],
    y: &mut [u64],
    z: &mut [u64],
)
    requires { (g < 256) × (length circuit.now ≡ circuit_length of.rep.n of.rep.m) × (length words.now ≡ TAPES) × (length x.old ≡ of.rep.m) × (length y.old ≡ of.rep.m) × (length z.old ≡ of.rep.m) }
    ensures { let rep = of.entry.rep in let f = circuit_in rep.n rep.m circuit.now in (share : ℕ → Share) → HoldsShares rep share words.now → HoldsForms f (λ q. (share q).s) x.old y.old z.old → HoldsAnswers rep g f of.entry.values.now share x.new y.new z.new }
{
    let m = of.rep.m;
    let a = mask_at(of.rep);
    let c = helper_at(of.rep);
    constants(of.rep, g, circuit, x, y, z);
    alpha_words(of, g, &words[a..a + m], x);
    marks::clear_marked(y, marks::mark(g, of.rep.hidden));
    rest_words(of, g, &words[c..c + m], z);
}

// The constants of the forms A1, A2 and A0, added at party 1 alone.
fn constants(rep: Rep, g: usize, circuit: &[u8], x: &mut [u64], y: &mut [u64], z: &mut [u64])
    requires { (Sized rep) × (g < 256) × (length circuit.now ≡ circuit_length rep.n rep.m) × (length x.old ≡ rep.m) × (length y.old ≡ rep.m) × (length z.old ≡ rep.m) }
    ensures { (share : ℕ → List ℕ) → HoldsForms (circuit_in rep.n rep.m circuit.now) share x.old y.old z.old → HoldsParts g (circuit_in rep.n rep.m circuit.now) share x.new y.new z.new }
{
    let size = table(rep);
    let first = marks::mark(g, 1);
    marks::add_constants(x, circuit, 0, first);
    marks::add_constants(y, circuit, size * 2, first);
    marks::add_constants(z, circuit, (size + size) * 2, first);
}

// x times the challenge plus a; at the hidden party the given α.
fn alpha_words(of: Inputs<'_>, g: usize, a: &[u64], x: &mut [u64])
    requires { (g < 256) × (length a.now ≡ of.rep.m) × (length x.old ≡ of.rep.m) }
    ensures { AlphaWords of.entry.rep g of.entry.values.now a.now x.old x.new }
{
    let m = of.rep.m;
    let b = of.rep.n + m;
    let c = b + m;
    let d = c + m;
    let e = d + m;
    let hide = marks::mark(g, of.rep.hidden);
    marks::multiply_add(x, &of.values[b..c], a);
    marks::clear_marked(x, hide);
    marks::add_marked(x, &of.values[d..e], hide);
}

// z times the challenge plus c, where every party but the first has t in its z; at the hidden party 0.
fn rest_words(of: Inputs<'_>, g: usize, more: &[u64], z: &mut [u64])
    requires { (g < 256) × (length more.now ≡ of.rep.m) × (length z.old ≡ of.rep.m) }
    ensures { RestWords of.entry.rep g of.entry.values.now more.now z.old z.new }
{
    let m = of.rep.m;
    let b = of.rep.n + m;
    let c = b + m;
    let d = c + m;
    let others = 0x1111111111111111 ^ marks::mark(g, 1);
    marks::add_marked(z, &of.values[c..d], others);
    marks::multiply_add(z, &of.values[b..c], more);
    marks::clear_marked(z, marks::mark(g, of.rep.hidden));
}
