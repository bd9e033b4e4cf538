// The loops of signing over all repetitions, algorithm 12: phase 1, which commits to the shares of every party and works out the corrections.
// No secret picks a branch; y picks places in the table of products where the corrections are worked out, and nothing else picks an address. The numbers of the repetitions are public.

#![tactic(auto)]

mod basis;

ghost use Rattle.std.specs.Prelude.{◌≡◌, ◌+◌, ◌-◌, ◌*◌, ◌≤◌, length, drop};
ghost use mathlib.Core.List.{flatten, ◌++◌};
ghost use Rattle.memory.specs.Lists.{put};
ghost use Rattle.memory.specs.Sections.{pieces};
ghost use Rattle.field.specs.Packing.{packed_length};
ghost use Rattle.sponge.specs.Steps.{absorbed};
ghost use Rattle.sets.specs.Sets.{S};
ghost use Rattle.refusals.specs.Refusals.{work_length};
ghost use Rattle.biscuit.specs.Signature.{repeated, vector_count};
ghost use Rattle.biscuit.specs.Room.{Fits, groups, leaves_at, roots_at};
ghost use Rattle.vectors.specs.Elements.{elements_put};
ghost use Rattle.passes.specs.Passes.{seeds_in, first_in, corrections_in, Committed};

pub use basis::{Basis, Turn};
use hashes::Salted;
use sets::{MOST_EQUATIONS, MOST_VARIABLES, Params};
use sponge::Sponge;

// Stays: the lengths of packing and work are clauses of each function that is lent them. Both are lent to be written, and a struct around a `&mut` slice, which has to be taken apart and built again at each call, is no plainer.

// Phase 1, lines 6 to 22: the first hash takes the commitments and the corrections of every repetition, and the corrections are written to the packing.
pub fn commit_pass(hash: Sponge, basis: Basis<'_>, packing: &mut [u8], work: &mut [u8]) -> Sponge
    requires { (length packing.old ≡ packed_length (vector_count basis.p)) × (length work.old ≡ work_length) }
    ensures absorbs { let b = basis.entry in result ≡ absorbed hash (repeated b.p.tau (λ e. first_in b.p b.salt.now b.secret.now e (seeds_in b.p b.salt.now (drop (roots_at b.p) work.old) e))) }
    ensures writes { let b = basis.entry in packing.new ≡ elements_put (repeated b.p.tau (λ e. corrections_in b.p b.salt.now b.secret.now e (seeds_in b.p b.salt.now (drop (roots_at b.p) work.old) e))) 0 packing.old }
    ensures plants { let b = basis.entry in work.new ≡ put work.old (leaves_at b.p) (flatten (seeds_in b.p b.salt.now (drop (roots_at b.p) work.old) b.p.tau)) }
{
    let mut next = hash;
    for done in 0..basis.p.tau {
        next = commit_turn(next, Turn { basis, e: done + 1 }, packing, work);
    }
    next
}

// Line 7: the leaves of a repetition, from its root.
pub fn plant(p: Params, of: Salted<'_>, work: &mut [u8])
    requires { (Fits p) × (1 ≤ of.e) × (of.e ≤ p.tau) × (length of.salt.now ≡ 2 * S p) × (length work.old ≡ work_length) }
    ensures { work.new ≡ put work.old (leaves_at p) (flatten (seeds_in p of.entry.salt.now (drop (roots_at p) work.old) of.entry.e)) }
{
    let map = biscuit::layout_of(p);
    let s = p.bits / 8;
    let at = (of.e - 1) * s;
    let (front, roots) = work.split_at_mut(map.roots);
    let room = &mut front[map.leaves..map.room];
    tree::leaves(of, &roots[at..at + s], p.l, room);
}

// Lines 7 to 22 of a repetition.
fn commit_turn(hash: Sponge, turn: Turn<'_>, packing: &mut [u8], work: &mut [u8]) -> Sponge
    requires { (length packing.old ≡ packed_length (vector_count turn.basis.p)) × (length work.old ≡ work_length) }
    ensures commits { let b = turn.entry.basis in Committed b.p turn.entry.e b.salt.now b.secret.now (seeds_in b.p b.salt.now (drop (roots_at b.p) work.old) turn.entry.e) hash result packing.old packing.new }
    ensures plants { let b = turn.entry.basis in work.new ≡ put work.old (leaves_at b.p) (flatten (seeds_in b.p b.salt.now (drop (roots_at b.p) work.old) turn.entry.e)) }
{
    let p = turn.basis.p;
    let map = biscuit::layout_of(p);
    let of = Salted {
        salt: turn.basis.salt,
        e: turn.e,
    };
    plant(p, of, work);
    commit_leaves(hash, turn, &work[map.leaves..map.room], packing)
}

// Lines 9 to 22 of a repetition, from the leaves: the corrections that it gives are written to the packing.
fn commit_leaves(hash: Sponge, turn: Turn<'_>, leaves: &[u8], packing: &mut [u8]) -> Sponge
    requires { (length leaves.now ≡ 16 * groups turn.basis.p * S turn.basis.p) × (length packing.old ≡ packed_length (vector_count turn.basis.p)) }
    ensures { let b = turn.entry.basis in Committed b.p turn.entry.e b.salt.now b.secret.now (pieces (S b.p) (16 * groups b.p) leaves.now) hash result packing.old packing.new }
{
    let p = turn.basis.p;
    let secret = turn.basis.secret;
    let (n, m) = (p.n, p.m);
    let mut ds = [0u8; MOST_VARIABLES];
    let mut dc = [0u8; MOST_EQUATIONS];
    let ds = &mut ds[0..n];
    let dc = &mut dc[0..m];
    let of = Salted {
        salt: turn.basis.salt,
        e: turn.e,
    };
    let next = views::repetition_first(
        hash,
        p,
        16 * biscuit::groups_of(p),
        of,
        leaves,
        &secret[0..n],
        &secret[n + m..n + m + m],
        ds,
        dc,
    );
    write_corrections(turn, ds, dc, packing);
    next
}

// Line 40, of Δs and Δc of a repetition: written to their place in the packing.
fn write_corrections(turn: Turn<'_>, ds: &[u8], dc: &[u8], packing: &mut [u8])
    requires { (length ds.now ≡ turn.basis.p.n) × (length dc.now ≡ turn.basis.p.m) × (length packing.old ≡ packed_length (vector_count turn.basis.p)) }
    ensures { let p = turn.entry.basis.p in packing.new ≡ elements_put (ds.now ++ dc.now) ((turn.entry.e - 1) * (p.n + p.m)) packing.old }
{
    let p = turn.basis.p;
    let at = (turn.e - 1) * (p.n + p.m);
    vectors::write_elements(ds, at, packing);
    vectors::write_elements(dc, at + p.n, packing);
}
