// Phase 5 of algorithm 12: every section of the signature, written through the part lent for it.
ghost use Rattle.std.specs.Prelude.{◌≡◌, List, ◌++◌, ℕ, ◌+◌, ◌*◌, ◌≤◌, length, take, drop};
ghost use Rattle.memory.specs.Lists.{put};
ghost use Rattle.field.specs.Packing.{pack};
ghost use Rattle.sets.specs.Sets.{S, signature_length};
ghost use Rattle.refusals.specs.Refusals.{work_length};
ghost use Rattle.biscuit.specs.Room.{roots_at};
ghost use Rattle.biscuit.specs.Signature.{repeated, shown, vectors, head_length, packing_at, written};
ghost use Rattle.biscuit.specs.Sign.{Signer, signed};
ghost use Rattle.passes.specs.Passes.{HoldsRoots};
ghost use Rattle.replies.specs.Replies.{Challenged, HoldsHidden};
ghost use Rattle.signing.specs.Signing.{HoldsHashes};

use passes::Basis;
use sets::MOST_REPETITIONS;

// Phase 5: every section of the signature in its place.
pub fn open(basis: Basis<'_>, h1: &[u8], h2: &[u8], signature: &mut [u8], work: &mut [u8])
    requires { (length h1.now ≡ 2 * S basis.p) × (length h2.now ≡ 2 * S basis.p) × (length signature.old ≡ signature_length basis.p) × (length work.old ≡ work_length) }
    ensures { let b = basis.entry in (signer : Signer) (msg : List ℕ) → HoldsHashes b.p signer msg b.salt.now b.secret.now h1.now h2.now (drop (packing_at b.p) signature.old) work.old → signature.new ≡ written b.p (signed b.p signer msg) }
{
    let mut hidden = [0u8; MOST_REPETITIONS];
    let hidden = &mut hidden[0..basis.p.tau];
    forms::tape_bytes(h2, hidden);
    write_head(basis.salt, h1, h2, signature);
    open_hidden(basis, hidden, signature, work);
}

// Salt and both hashes, one behind the other.
fn write_head(salt: &[u8], h1: &[u8], h2: &[u8], signature: &mut [u8])
    requires { (length salt.now ≤ 64) × (length h1.now ≤ 64) × (length h2.now ≡ length h1.now) × (length salt.now + length h1.now + length h2.now ≤ length signature.old) }
    ensures { signature.new ≡ put signature.old 0 (salt.now ++ (h1.now ++ h2.now)) }
{
    let a = salt.len();
    let b = a + h1.len();
    let c = b + h2.len();
    signature[0..a].copy_from_slice(salt);
    signature[a..b].copy_from_slice(h1);
    signature[b..c].copy_from_slice(h2);
}

// What is shown of each repetition, and then the hidden α, with the hidden parties' bytes.
fn open_hidden(basis: Basis<'_>, hidden: &[u8], signature: &mut [u8], work: &mut [u8])
    requires { (length hidden.now ≡ basis.p.tau) × (length signature.old ≡ signature_length basis.p) × (length work.old ≡ work_length) }
    ensures { let b = basis.entry in (signer : Signer) (msg : List ℕ) → Challenged b.p signer msg b.salt.now b.secret.now (drop (packing_at b.p) signature.old) work.old → HoldsRoots b.p signer (drop (roots_at b.p) work.old) → HoldsHidden b.p signer msg hidden.now → signature.new ≡ take (head_length b.p) signature.old ++ (repeated b.p.tau (λ e. shown ((signed b.p signer msg).opening e)) ++ pack (vectors b.p (signed b.p signer msg))) }
{
    let p = basis.p;
    let map = biscuit::layout_of(p);
    let s = p.bits / 8;
    let a = 2 * s + 2 * s + 2 * s;
    let b = biscuit::packing_at(p);
    let e = signature.len();
    opening::show_all(
        p,
        basis.salt,
        hidden,
        &mut work[map.roots..map.challenges],
        &mut signature[a..b],
    );
    replies::alpha_pass(basis, hidden, &mut signature[b..e], work);
}
