// Phase 5 of signing, algorithm 12 lines 37 to 40, first half: the path and the hidden party's commitment of each repetition are written to the section of
// the signature lent for them, and the hidden leaf takes the place of its root. No seed chooses a branch or an address; the hidden party does, and is public by then.

#![tactic(auto)]

ghost use Rattle.std.specs.Prelude.{◌≡◌, ◌+◌, ◌*◌, ◌^◌, ◌≤◌, ◌<◌, length, take, drop};
ghost use Rattle.memory.specs.Lists.{put};
ghost use Rattle.sets.specs.Sets.{S};
ghost use Rattle.forms.specs.Room.{hidden_in};
ghost use Rattle.biscuit.specs.Signature.{repeated};
ghost use Rattle.opening.specs.Shown.{leaf_under, shown_under, leaf_of, shown_of};

use hashes::Salted;
use sets::{LONGEST_SEED, Params};

// Writes the path and the hidden party's commitment of each repetition to `out`, one behind the other, and the hidden leaf of each over its root. `hidden`
// has a byte for each repetition.
pub fn show_all(p: Params, salt: &[u8], hidden: &[u8], roots: &mut [u8], out: &mut [u8])
    requires { (S p ≤ 32) × (p.l ≤ 8) × (p.tau ≤ 73) × (length salt.now ≤ 64) × (p.tau ≤ length hidden.now) × (length roots.old ≡ p.tau * S p) × (length out.old ≡ p.tau * (p.l * S p + 2 * S p)) }
    ensures shown { out.new ≡ repeated p.tau (shown_of p salt.now hidden.now roots.old) }
    ensures leaves { roots.new ≡ repeated p.tau (leaf_of p salt.now hidden.now roots.old) }
{
    for i in 0..p.tau {
        show(p.bits / 8, p.l, salt, hidden, i, roots, out);
    }
}

// The repetition with i before it, of 2^l parties with s bytes to a seed, in its sections of `roots` and `out`.
fn show(s: usize, l: usize, salt: &[u8], hidden: &[u8], i: usize, roots: &mut [u8], out: &mut [u8])
    requires { (s ≤ 32) × (l ≤ 8) × (i < 73) × (length salt.now ≤ 64) × (i < length hidden.now) × (i * s + s ≤ length roots.old) × (i * (l * s + 2 * s) + (l * s + 2 * s) ≤ length out.old) }
    ensures shown { out.new ≡ put out.old (i * (l * s + 2 * s)) (shown_under s salt.now (i + 1) l (take s (drop (i * s) roots.old)) (hidden_in l hidden.now (i + 1))) }
    ensures leaf { roots.new ≡ put roots.old (i * s) (leaf_under s salt.now (i + 1) l (take s (drop (i * s) roots.old)) (hidden_in l hidden.now (i + 1))) }
{
    let w = l * s + 2 * s;
    let a = i * s;
    let c = i * w;
    let of = Salted { salt, e: i + 1 };
    let h = forms::hidden_party(hidden, l, i + 1);
    show_one(of, l, h, &mut roots[a..a + s], &mut out[c..c + w]);
}

// Writes the path around party h and its commitment to `out`, and its leaf over the root.
fn show_one(of: Salted<'_>, l: usize, h: usize, root: &mut [u8], out: &mut [u8])
    requires { (length root.old ≤ 32) × (l ≤ 8) × (1 ≤ h) × (h ≤ 2 ^ l) × (length out.old ≡ l * length root.old + 2 * length root.old) }
    ensures shown { out.new ≡ shown_under (length root.old) of.entry.salt.now of.entry.e l root.old h }
    ensures leaf { root.new ≡ leaf_under (length root.old) of.entry.salt.now of.entry.e l root.old h }
{
    let s = root.len();
    let mut leaf = [0u8; LONGEST_SEED];
    let a = l * s;
    tree::path(of, root, l, h, &mut leaf[0..s], &mut out[0..a]);
    of.commit(h, &leaf[0..s], &mut out[a..a + 2 * s]);
    memory::copy(&leaf[0..s], root);
}
