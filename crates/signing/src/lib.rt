// Signing, algorithm 12 of the submission: salt and roots are drawn, the two passes over all repetitions give the hashes, and each section of the signature is written
// through the part lent for it. Whether the key is consistent picks a branch, and is told; no other secret does, and secrets pick addresses in the table of products alone.

#![tactic(auto)]

mod sections;

ghost use Rattle.std.specs.Prelude.{◌≡◌, cond, List, ℕ, ◌+◌, ◌*◌, length, take, drop};
ghost use Rattle.field.specs.Packing.{Elements, packed_length};
ghost use Rattle.sets.specs.Sets.{S, secret_key_length, signature_length};
ghost use Rattle.forms.specs.Room.{HoldsCircuit};
ghost use Rattle.refusals.specs.Refusals.{work_length};
ghost use Rattle.biscuit.specs.Keys.{consistent_key};
ghost use Rattle.biscuit.specs.Room.{Fits, leaves_at};
ghost use Rattle.biscuit.specs.Signature.{vector_count, written};
ghost use Rattle.biscuit.specs.Sign as sign;
ghost use Rattle.biscuit.specs.Sign.{Signer, f, h₁, signed, signer_of, drawn};
ghost use Rattle.passes.specs.Passes.{HoldsSecret, HoldsCorrections};
ghost use Rattle.signing.specs.Signing.{HoldsSigner, HoldsHashes};

use keys::SECRET;
use passes::Basis;
use sets::{LONGEST_HASH, Params};
use sponge::Sponge;

// Stays: the lengths of hashes, signature, packing and work are clauses of each function that is lent them, since a struct around `&mut` slices, which has to be taken apart and built again at each call, is no plainer; and that the secret's bytes are elements is a clause, since `Basis` may not ask it of the callers of `passes`.

// The signature of the message by the secret key, where that is consistent; otherwise nothing is written. The elements of the secret key are cleared again.
pub fn sign(
    p: Params,
    sk: &[u8],
    message: &[u8],
    random: &[u8],
    signature: &mut [u8],
    work: &mut [u8],
) -> bool
    requires { (Fits p) × (length sk.now ≡ secret_key_length p) × (length signature.old ≡ signature_length p) × (length work.old ≡ work_length) }
    ensures { (result ≡ consistent_key p sk.now) × (signature.new ≡ cond (consistent_key p sk.now) (sign.signature p sk.now random.now message.now) signature.old) }
{
    let e = forms::circuit_len(p.n, p.m);
    let mut secret = [0u8; SECRET];
    let secret = &mut secret[0..p.n + p.m + p.m];
    let consistent = keys::consistent(p, sk, secret, &mut work[0..e]);
    if consistent {
        write(p, sk, message, random, secret, signature, work);
    }
    memory::clear(secret);
    consistent
}

// The signature of a signer whose key is consistent, with the circuit in work.
fn write(
    p: Params,
    sk: &[u8],
    message: &[u8],
    random: &[u8],
    secret: &[u8],
    signature: &mut [u8],
    work: &mut [u8],
)
    requires { (Fits p) × (length secret.now ≡ p.n + p.m + p.m) × (Elements secret.now) × (length signature.old ≡ signature_length p) × (length work.old ≡ work_length) }
    ensures { let signer = signer_of p sk.now random.now message.now in HoldsSecret p signer signer.salt secret.now → HoldsCircuit p.n p.m (f p signer) (take (leaves_at p) work.old) → signature.new ≡ sign.signature p sk.now random.now message.now }
{
    let map = biscuit::layout_of(p);
    let mut salt = [0u8; LONGEST_HASH];
    let salt = &mut salt[0..p.bits / 8 * 2];
    draw(
        p,
        sk,
        message,
        random,
        salt,
        &mut work[map.roots..map.challenges],
    );
    write_drawn(Basis { p, salt, secret }, message, signature, work);
}

// Algorithm 12, line 5: salt and roots from the random bytes, the secret key's bytes as given and the message.
fn draw(p: Params, sk: &[u8], message: &[u8], random: &[u8], salt: &mut [u8], roots: &mut [u8])
    requires { (length salt.old ≡ 2 * S p) × (length roots.old ≡ p.tau * S p) }
    ensures { (salt.new ≡ (signer_of p sk.now random.now message.now).salt) × (roots.new ≡ drop (2 * S p) (drawn p sk.now random.now message.now)) }
{
    let start = Sponge::new().absorb(random).absorb(sk);
    let tape = start.absorb(message).finish();
    let rest = tape.squeeze(salt);
    rest.squeeze(roots);
}

// The signature from salt and roots.
fn write_drawn(basis: Basis<'_>, message: &[u8], signature: &mut [u8], work: &mut [u8])
    requires { (Elements basis.secret.now) × (length signature.old ≡ signature_length basis.p) × (length work.old ≡ work_length) }
    ensures { let b = basis.entry in (signer : Signer) → HoldsSigner b.p signer b.salt.now b.secret.now work.old → signature.new ≡ written b.p (signed b.p signer message.now) }
{
    let n = basis.p.bits / 8 * 2;
    let a = biscuit::packing_at(basis.p);
    let e = signature.len();
    let mut h1 = [0u8; LONGEST_HASH];
    let mut h2 = [0u8; LONGEST_HASH];
    let h1 = &mut h1[0..n];
    let h2 = &mut h2[0..n];
    commit(basis, message, h1, h2, &mut signature[a..e], work);
    sections::open(basis, h1, h2, signature, work);
}

// Phases 1 to 4: both hashes, and the corrections in the packing.
fn commit(
    basis: Basis<'_>,
    message: &[u8],
    h1: &mut [u8],
    h2: &mut [u8],
    packing: &mut [u8],
    work: &mut [u8],
)
    requires { (Elements basis.secret.now) × (length h1.old ≡ 2 * S basis.p) × (length h2.old ≡ 2 * S basis.p) × (length packing.old ≡ packed_length (vector_count basis.p)) × (length work.old ≡ work_length) }
    ensures { let b = basis.entry in (signer : Signer) → HoldsSigner b.p signer b.salt.now b.secret.now work.old → HoldsHashes b.p signer message.now b.salt.now b.secret.now h1.new h2.new packing.new work.new }
{
    let start = hashes::first(basis.salt).absorb(message);
    let full = passes::commit_pass(start, basis, packing, work);
    full.finish().squeeze(h1);
    answer(basis, h1, h2, packing, work);
}

// Phases 2 to 4: the challenges from the first hash, and the second.
fn answer(basis: Basis<'_>, h1: &[u8], h2: &mut [u8], packing: &[u8], work: &mut [u8])
    requires { (Elements basis.secret.now) × (length h2.old ≡ 2 * S basis.p) × (length packing.now ≡ packed_length (vector_count basis.p)) × (length work.old ≡ work_length) }
    ensures { let b = basis.entry in (signer : Signer) (msg : List ℕ) → HoldsSigner b.p signer b.salt.now b.secret.now work.old → h1.now ≡ h₁ b.p signer msg → HoldsCorrections b.p signer b.p.tau packing.now → HoldsHashes b.p signer msg b.salt.now b.secret.now h1.now h2.new packing.now work.new }
{
    let map = biscuit::layout_of(basis.p);
    forms::tape_bytes(h1, &mut work[map.challenges..map.end]);
    let start = hashes::second(basis.salt, h1);
    let full = replies::answer_pass(start, basis, packing, work);
    full.finish().squeeze(h2);
}
