// The first pass over the groups of a repetition: every α is absorbed; the sums over the parties, and y and z·ε + c of each group, are kept.
// No secret picks a branch or an address; the number of the group is public.
ghost use Rattle.std.specs.Prelude.{◌≡◌, ℕ, ◌+◌, ◌*◌, ◌≤◌, ◌<◌, length, take, drop};
ghost use mathlib.Core.List.{List, flatten};
ghost use Rattle.field.specs.Packing.{pack};
ghost use Rattle.sponge.specs.Steps.{absorbed};
ghost use Rattle.forms.specs.Room.{circuit_in};
ghost use Rattle.group.specs.Shares.{Sized, values_length, share_at, HoldsAnswers};
ghost use Rattle.answers.specs.Passes.{circuit_of, leaves_of, room_at, alphas_of, second_forms_of, rests_of, Packs, InLanes, Turn, TwoTurns, Passed, Zeros};

use crate::packed::absorb_group;
use group::{Inputs, Rep};
use sets::MOST_EQUATIONS;
use sponge::Sponge;

// Every α absorbed; the sums over the parties, and y and z·ε + c of each group, are kept.
// Stays: sa, sy and sw, and x, y and z below, are slices and no structs of three: `linear` and `marks` write them one by one, so a struct of three `&mut` would be built and taken apart at each call, and is no plainer.
pub fn first_pass(
    sponge: Sponge,
    of: Inputs<'_>,
    sa: &mut [u64],
    sy: &mut [u64],
    sw: &mut [u64],
    work: &mut [u8],
) -> Sponge
    requires { (0 < of.rep.groups) × (length sa.old ≡ of.rep.m) × (length sy.old ≡ of.rep.m) × (length sw.old ≡ of.rep.m) × (Zeros sa.old) × (Zeros sy.old) × (Zeros sw.old) × (length work.old ≡ room_at of.rep + of.rep.groups * (16 * of.rep.m)) }
    ensures absorbs { let rep = of.entry.rep in let circuit = circuit_of rep work.old in let leaves = leaves_of rep work.old in let salt = of.entry.salt.now in let values = of.entry.values.now in result ≡ absorbed sponge (pack (flatten (alphas_of rep circuit salt leaves values))) }
    ensures keeps { let rep = of.entry.rep in let circuit = circuit_of rep work.old in let leaves = leaves_of rep work.old in let salt = of.entry.salt.now in let values = of.entry.values.now in Passed rep.groups rep.m (alphas_of rep circuit salt leaves values) (second_forms_of rep circuit salt leaves values) (rests_of rep circuit salt leaves values) sa.new sy.new sw.new (drop (room_at rep) work.new) }
    ensures kept { let rep = of.entry.rep in take (room_at rep) work.new ≡ take (room_at rep) work.old }
{
    let pairs = of.rep.groups / 2;
    let mut s = sponge;
    for pair in 0..pairs {
        s = turn_two(s, of, 2 * pair, sa, sy, sw, work);
    }
    if 2 * pairs < of.rep.groups {
        return turn(s, of, 2 * pairs, sa, sy, sw, work);
    }
    s
}

// Where the room begins, behind the circuit and the leaves.
pub fn room_at(rep: Rep) -> usize
    requires { Sized rep }
    ensures { result ≡ room_at rep }
{
    forms::circuit_len(rep.n, rep.m) + 16 * rep.groups * rep.s
}

// Two groups, one after the other.
fn turn_two(
    sponge: Sponge,
    of: Inputs<'_>,
    g: usize,
    sa: &mut [u64],
    sy: &mut [u64],
    sw: &mut [u64],
    work: &mut [u8],
) -> Sponge
    requires { (g + 1 < of.rep.groups) × (length sa.old ≡ of.rep.m) × (length sy.old ≡ of.rep.m) × (length sw.old ≡ of.rep.m) × (length work.old ≡ room_at of.rep + of.rep.groups * (16 * of.rep.m)) }
    ensures turned { let rep = of.entry.rep in let circuit = circuit_of rep work.old in let leaves = leaves_of rep work.old in let salt = of.entry.salt.now in let values = of.entry.values.now in TwoTurns g rep.m (alphas_of rep circuit salt leaves values) (second_forms_of rep circuit salt leaves values) (rests_of rep circuit salt leaves values) sponge sa.old sy.old sw.old sa.new sy.new sw.new (take (16 * rep.m) (drop (room_at rep + g * (16 * rep.m)) work.new)) (take (16 * rep.m) (drop (room_at rep + (g + 1) * (16 * rep.m)) work.new)) result }
    ensures kept { let rep = of.entry.rep in take (room_at rep + g * (16 * rep.m)) work.new ≡ take (room_at rep + g * (16 * rep.m)) work.old }
{
    let m = of.rep.m;
    let mut x = [0u64; MOST_EQUATIONS];
    let mut y = [0u64; MOST_EQUATIONS];
    let mut z = [0u64; MOST_EQUATIONS];
    let mut x2 = [0u64; MOST_EQUATIONS];
    let mut y2 = [0u64; MOST_EQUATIONS];
    let mut z2 = [0u64; MOST_EQUATIONS];
    groups_of(
        of,
        g,
        work,
        &mut x[0..m],
        &mut y[0..m],
        &mut z[0..m],
        &mut x2[0..m],
        &mut y2[0..m],
        &mut z2[0..m],
    );
    let first = taken_at(
        sponge,
        of.rep,
        g,
        &x[0..m],
        &y[0..m],
        &z[0..m],
        sa,
        sy,
        sw,
        work,
    );
    taken_at(
        first,
        of.rep,
        g + 1,
        &x2[0..m],
        &y2[0..m],
        &z2[0..m],
        sa,
        sy,
        sw,
        work,
    )
}

// α, y and z·ε + c of the parties of group g and of the next, by the circuit and the leaves in the work.
fn groups_of(
    of: Inputs<'_>,
    g: usize,
    work: &[u8],
    x: &mut [u64],
    y: &mut [u64],
    z: &mut [u64],
    x2: &mut [u64],
    y2: &mut [u64],
    z2: &mut [u64],
)
    requires { (g + 1 < of.rep.groups) × (room_at of.rep ≤ length work.now) × (length x.old ≡ of.rep.m) × (length y.old ≡ of.rep.m) × (length z.old ≡ of.rep.m) × (length x2.old ≡ of.rep.m) × (length y2.old ≡ of.rep.m) × (length z2.old ≡ of.rep.m) }
    ensures first { let rep = of.entry.rep in let circuit = circuit_of rep work.now in let leaves = leaves_of rep work.now in let salt = of.entry.salt.now in let values = of.entry.values.now in HoldsAnswers rep g (circuit_in rep.n rep.m circuit) values (λ q. share_at rep salt leaves values (16 * g + q)) x.new y.new z.new }
    ensures second { let rep = of.entry.rep in let circuit = circuit_of rep work.now in let leaves = leaves_of rep work.now in let salt = of.entry.salt.now in let values = of.entry.values.now in HoldsAnswers rep (g + 1) (circuit_in rep.n rep.m circuit) values (λ q. share_at rep salt leaves values (16 * (g + 1) + q)) x2.new y2.new z2.new }
{
    let c = forms::circuit_len(of.rep.n, of.rep.m);
    let l = room_at(of.rep);
    group::two_groups(
        of,
        g,
        &work[c..l],
        of,
        g + 1,
        &work[c..l],
        &work[0..c],
        x,
        y,
        z,
        x2,
        y2,
        z2,
    );
}

// One group: its α absorbed, its vectors added to the sums, and y and z·ε + c kept.
fn turn(
    sponge: Sponge,
    of: Inputs<'_>,
    g: usize,
    sa: &mut [u64],
    sy: &mut [u64],
    sw: &mut [u64],
    work: &mut [u8],
) -> Sponge
    requires { (g < of.rep.groups) × (length sa.old ≡ of.rep.m) × (length sy.old ≡ of.rep.m) × (length sw.old ≡ of.rep.m) × (length work.old ≡ room_at of.rep + of.rep.groups * (16 * of.rep.m)) }
    ensures turned { let rep = of.entry.rep in let circuit = circuit_of rep work.old in let leaves = leaves_of rep work.old in let salt = of.entry.salt.now in let values = of.entry.values.now in Turn g rep.m (alphas_of rep circuit salt leaves values) (second_forms_of rep circuit salt leaves values) (rests_of rep circuit salt leaves values) sponge sa.old sy.old sw.old sa.new sy.new sw.new (take (16 * rep.m) (drop (room_at rep + g * (16 * rep.m)) work.new)) result }
    ensures kept { let rep = of.entry.rep in take (room_at rep + g * (16 * rep.m)) work.new ≡ take (room_at rep + g * (16 * rep.m)) work.old }
{
    let m = of.rep.m;
    let mut x = [0u64; MOST_EQUATIONS];
    let mut y = [0u64; MOST_EQUATIONS];
    let mut z = [0u64; MOST_EQUATIONS];
    group_of(of, g, work, &mut x[0..m], &mut y[0..m], &mut z[0..m]);
    taken_at(
        sponge,
        of.rep,
        g,
        &x[0..m],
        &y[0..m],
        &z[0..m],
        sa,
        sy,
        sw,
        work,
    )
}

// α, y and z·ε + c of the sixteen parties of group g, by the circuit and the leaves in the work.
fn group_of(of: Inputs<'_>, g: usize, work: &[u8], x: &mut [u64], y: &mut [u64], z: &mut [u64])
    requires { (g < of.rep.groups) × (room_at of.rep ≤ length work.now) × (length x.old ≡ of.rep.m) × (length y.old ≡ of.rep.m) × (length z.old ≡ of.rep.m) }
    ensures { let rep = of.entry.rep in let circuit = circuit_of rep work.now in let leaves = leaves_of rep work.now in let salt = of.entry.salt.now in let values = of.entry.values.now in HoldsAnswers rep g (circuit_in rep.n rep.m circuit) values (λ q. share_at rep salt leaves values (16 * g + q)) x.new y.new z.new }
{
    let c = forms::circuit_len(of.rep.n, of.rep.m);
    let l = room_at(of.rep);
    group::group(of, g, &work[c..l], &work[0..c], x, y, z);
}

// The vectors of group g taken, and kept at its place in the work.
fn taken_at(
    sponge: Sponge,
    rep: Rep,
    g: usize,
    x: &[u64],
    y: &[u64],
    z: &[u64],
    sa: &mut [u64],
    sy: &mut [u64],
    sw: &mut [u64],
    work: &mut [u8],
) -> Sponge
    requires { (Sized rep) × (g < rep.groups) × (length x.now ≡ rep.m) × (length y.now ≡ rep.m) × (length z.now ≡ rep.m) × (length sa.old ≡ rep.m) × (length sy.old ≡ rep.m) × (length sw.old ≡ rep.m) × (length work.old ≡ room_at rep + rep.groups * (16 * rep.m)) }
    ensures turned { (circuit salt leaves values : List ℕ) → length values ≡ values_length rep → HoldsAnswers rep g (circuit_in rep.n rep.m circuit) values (λ q. share_at rep salt leaves values (16 * g + q)) x.now y.now z.now → Turn g rep.m (alphas_of rep circuit salt leaves values) (second_forms_of rep circuit salt leaves values) (rests_of rep circuit salt leaves values) sponge sa.old sy.old sw.old sa.new sy.new sw.new (take (16 * rep.m) (drop (room_at rep + g * (16 * rep.m)) work.new)) result }
    ensures kept { take (room_at rep + g * (16 * rep.m)) work.new ≡ take (room_at rep + g * (16 * rep.m)) work.old }
{
    let size = 16 * rep.m;
    let a = room_at(rep) + g * size;
    let e = a + size;
    taken(sponge, x, y, z, sa, sy, sw, &mut work[a..e])
}

// α absorbed; α, y and z·ε + c added to the sums; y and then z·ε + c written to the bytes.
fn taken(
    sponge: Sponge,
    x: &[u64],
    y: &[u64],
    z: &[u64],
    sa: &mut [u64],
    sy: &mut [u64],
    sw: &mut [u64],
    part: &mut [u8],
) -> Sponge
    requires { (16 ≤ length x.now) × (length x.now ≤ 121) × (length y.now ≡ length x.now) × (length z.now ≡ length x.now) × (length sa.old ≡ length x.now) × (length sy.old ≡ length x.now) × (length sw.old ≡ length x.now) × (length part.old ≡ 16 * length x.now) }
    ensures { (g : ℕ) (αs ys ws : List (List ℕ)) → Packs (take 16 (drop (16 * g) αs)) x.now → InLanes g αs x.now → InLanes g ys y.now → InLanes g ws z.now → Turn g (length x.now) αs ys ws sponge sa.old sy.old sw.old sa.new sy.new sw.new part.new result }
{
    let half = 8 * x.len();
    let end = half + half;
    marks::add_words(sa, x);
    marks::add_words(sy, y);
    marks::add_words(sw, z);
    marks::store_words(y, &mut part[0..half]);
    marks::store_words(z, &mut part[half..end]);
    absorb_group(sponge, x)
}
