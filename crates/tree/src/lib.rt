// The seed tree of section 4.4.1: all leaves of a root, the path that leaves one of them out, and the leaves that a path gives back. A level of the tree
// lies at the start of the lent part and is spread out there, from its last seed to its first, so that no seed is overwritten before its children are made.
// No seed chooses a branch or an address; the hidden party does, and is public by then.

#![tactic(auto)]

mod level;

ghost use Rattle.std.specs.Prelude.{◌≡◌, ◌+◌, ◌-◌, ◌*◌, ◌/◌, ◌^◌, ◌≤◌, ◌<◌, length, get_or, take, drop, replicate};
ghost use mathlib.Core.List.{[], flatten};
ghost use Rattle.memory.specs.Lists.{put};
ghost use Rattle.memory.specs.Sections.{pieces};
ghost use Rattle.hashes.specs.Hashes.{child_seeds};
ghost use Rattle.tree.specs.Tree.{children, get_seeds, towards, beside, sibling, get_path, get_path_seeds, filled};
ghost use Rattle.tree.specs.Spread.{spread, beside_blank, around};

use hashes::Salted;
use level::Level;

// The bytes of the largest seed.
const SEED: usize = 32;

// The bytes of two such seeds.
const PAIR: usize = 64;

// GetSeeds, algorithm 3: fills `out` with the 2^l leaves of the root, in order.
pub fn leaves(of: Salted<'_>, root: &[u8], l: usize, out: &mut [u8])
    requires { (length root.now ≤ 32) × (l ≤ 8) × (length out.old ≡ 2 ^ l * length root.now) }
    ensures { out.new ≡ flatten (get_seeds (children (length root.now) of.entry.salt.now of.entry.e) l root.now) }
{
    let s = root.len();
    memory::copy(root, out);
    for k in 0..l {
        Level { of, k, s }.split(0, 1 << k, out);
    }
}

// GetPath, algorithm 4: fills `out` with the l seeds from which all leaves of the root but the hidden party's are made, and `leaf` with the hidden party's own.
// On the walk from the root to the hidden leaf, `pair` has room for the two children of each step, and `at` is where the seed on the way lies in it.
pub fn path(of: Salted<'_>, root: &[u8], l: usize, hidden: usize, leaf: &mut [u8], out: &mut [u8])
    requires { (length root.now ≤ 32) × (l ≤ 8) × (1 ≤ hidden) × (length out.old ≡ l * length root.now) × (hidden ≤ 2 ^ l) × (length leaf.old ≡ length root.now) }
    ensures path { out.new ≡ flatten (get_path (children (length root.now) of.entry.salt.now of.entry.e) l root.now hidden) }
    ensures leaf { leaf.new ≡ get_or (get_seeds (children (length root.now) of.entry.salt.now of.entry.e) l root.now) (hidden - 1) [] }
{
    let s = root.len();
    let mut pair = [0u8; PAIR];
    memory::copy(root, &mut pair);
    let mut at = 0;
    for k in 0..l {
        at = Level { of, k, s }.step((hidden - 1) >> (l - 1 - k), at, &mut pair, out);
    }
    memory::copy(&pair[at..at + s], leaf);
}

// GetPathSeeds, algorithm 5: fills `out` with the leaves that a path gives, each in its place, and zeros in the hidden party's place.
pub fn rebuild(of: Salted<'_>, path: &[u8], l: usize, hidden: usize, s: usize, out: &mut [u8])
    requires { (s ≤ 32) × (l ≤ 8) × (1 ≤ hidden) × (hidden ≤ 2 ^ l) × (length path.now ≡ l * s) × (length out.old ≡ 2 ^ l * s) }
    ensures { out.new ≡ flatten (filled (replicate s 0) (get_path_seeds (children s of.entry.salt.now of.entry.e) l (pieces s l path.now) hidden)) }
{
    memory::clear(&mut out[0..s]);
    for k in 0..l {
        let p = (hidden - 1) >> (l - 1 - k);
        Level { of, k, s }.split_around(1 << k, p, &path[k * s..k * s + s], out);
    }
}

impl Level<'_> {
    // Spreads out the parents from `from` to `to`: the children of each take two places where it had one.
    fn split(self, from: usize, to: usize, out: &mut [u8])
        requires { (from ≤ to) × (to * (2 * self.s) ≤ length out.old) }
        ensures { out.new ≡ put out.old (from * (2 * self.entry.s)) (spread self.entry.s (children self.entry.s self.entry.of.salt.now self.entry.of.e self.entry.k) from to out.old) }
    {
        for j in (from..to).rev() {
            self.expand(j, j * self.s, j * (2 * self.s), out);
        }
    }

    // Spreads out n parents but for the parent of p, whose children are zeros at p and the seed given for p's sibling.
    fn split_around(self, n: usize, p: usize, own: &[u8], out: &mut [u8])
        requires { (p / 2 < n) × (n ≤ 256) × (n * (2 * self.s) ≤ length out.old) × (length own.now ≡ self.s) }
        ensures { out.new ≡ put out.old 0 (flatten (around (children self.entry.s self.entry.of.salt.now self.entry.of.e self.entry.k) p own.now (replicate self.entry.s 0) (pieces self.entry.s n out.old))) }
    {
        let q = p / 2;
        self.split(q + 1, n, out);
        place(own, p, self.s, out);
        self.split(0, q, out);
    }

    // One step of the walk, to position p: the seed beside the way goes to `out`, and the place of the seed on the way is given.
    fn step(self, p: usize, at: usize, pair: &mut [u8], out: &mut [u8]) -> usize
        requires { (at ≤ self.s) × (64 ≤ length pair.old) × (self.k * self.s + self.s ≤ length out.old) }
        ensures { (result ≤ self.entry.s) × (take self.entry.s (drop result pair.new) ≡ towards p (children self.entry.s self.entry.of.salt.now self.entry.of.e self.entry.k (p / 2) (take self.entry.s (drop at pair.old)))) × (out.new ≡ put out.old (self.entry.k * self.entry.s) (beside p (children self.entry.s self.entry.of.salt.now self.entry.of.e self.entry.k (p / 2) (take self.entry.s (drop at pair.old))))) }
    {
        let s = self.s;
        self.expand(p / 2, at, 0, pair);
        let right = p % 2 * s;
        let a = s - right;
        let c = self.k * s;
        memory::copy(&pair[a..a + s], &mut out[c..c + s]);
        right
    }

    // Puts the two children of the seed at byte `from`, the parent at position j, at byte `to`.
    fn expand(self, j: usize, from: usize, to: usize, out: &mut [u8])
        requires { (from + self.s ≤ length out.old) × (to + 2 * self.s ≤ length out.old) }
        ensures { out.new ≡ put out.old to (child_seeds self.entry.s self.entry.of.salt.now self.entry.of.e self.entry.k j (take self.entry.s (drop from out.old))) }
    {
        let s = self.s;
        let mut seed = [0u8; SEED];
        memory::copy(&out[from..from + s], &mut seed[0..s]);
        self.of
            .children(self.k, j, &seed[0..s], &mut out[to..to + 2 * s]);
    }
}

// Puts the seed given for p's sibling there, and zeros at p.
fn place(own: &[u8], p: usize, s: usize, out: &mut [u8])
    requires { (length own.now ≡ s) × ((p / 2 + 1) * (2 * s) ≤ length out.old) × (p < 65536) × (s ≤ 32) }
    ensures { out.new ≡ put out.old (p / 2 * (2 * s)) (flatten (beside_blank p own.now (replicate s 0))) }
{
    let beside = sibling(p) * s;
    memory::copy(own, &mut out[beside..beside + s]);
    let at = p * s;
    memory::clear(&mut out[at..at + s]);
}

// The sibling's position: the other child of the same parent.
fn sibling(p: usize) -> usize
    requires { p < 65536 }
    ensures { (result ≡ sibling p) × (result / 2 ≡ p / 2) }
{
    if p % 2 == 1 { p - 1 } else { p + 1 }
}
