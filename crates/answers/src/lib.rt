// The answers of one repetition for N parties, or of two for sixteen parties each, sixteen in the lanes of a word, for signing and verifying alike: every α and then every v goes into the second hash.
// No secret picks a branch or an address; the numbers of the repetition and of the hidden party are public.

#![tactic(auto)]

mod first;
mod packed;
mod second;
mod totals;

ghost use Rattle.std.specs.Prelude.{◌≡◌, List, ℕ, ◌+◌, ◌*◌, ◌≤◌, ◌<◌, length, take, drop};
ghost use Rattle.field.specs.Packing.{Elements};
ghost use Rattle.sets.specs.declared.Params.{Params};
ghost use Rattle.sponge.specs.Steps.{absorbed};
ghost use Rattle.forms.specs.Circuit.{Circuit};
ghost use Rattle.forms.specs.Room.{circuit_length, circuit_in, HoldsCircuit};
ghost use Rattle.group.specs.Shares.{Sized, values_length, share_at, HoldsAnswers};
ghost use Rattle.answers.specs.Answers.{shares_of, answered};
ghost use Rattle.answers.specs.Passes.{circuit_of, leaves_of, room_at, HoldsRoom};

use group::{Inputs, Rep};
use sets::MOST_EQUATIONS;
use sponge::Sponge;

// The second hash with every α and then every v of a repetition absorbed. The work holds the circuit and the leaves, which stay, and room in which y and z·ε + c of each group are left.
pub fn answers(sponge: Sponge, rep: Rep, salt: &[u8], values: &[u8], work: &mut [u8]) -> Sponge
    requires { (Sized rep) × (0 < rep.groups) × (length salt.now ≤ 64) × (length values.now ≡ values_length rep) × (Elements values.now) × (length work.old ≡ circuit_length rep.n rep.m + 16 * rep.groups * rep.s + rep.groups * (16 * rep.m)) }
    ensures absorbs { (P : Params) (f : Circuit) → P.n ≡ rep.n → P.m ≡ rep.m → HoldsCircuit rep.n rep.m f (circuit_of rep work.old) → result ≡ absorbed sponge (answered f rep values.now (shares_of P rep salt.now (leaves_of rep work.old) values.now)) }
    ensures kept { take (room_at rep) work.new ≡ take (room_at rep) work.old }
    ensures room { HoldsRoom rep (circuit_of rep work.old) salt.now (leaves_of rep work.old) values.now (drop (room_at rep) work.new) }
{
    let m = rep.m;
    let a = first::room_at(rep);
    let e = work.len();
    let mut sa = [0u64; MOST_EQUATIONS];
    let mut sy = [0u64; MOST_EQUATIONS];
    let mut sw = [0u64; MOST_EQUATIONS];
    let first = first::first_pass(
        sponge,
        Inputs { rep, salt, values },
        &mut sa[0..m],
        &mut sy[0..m],
        &mut sw[0..m],
        work,
    );
    second::finish(first, rep, &sa[0..m], &mut sy[0..m], &sw[0..m], &work[a..e])
}

// The second hash with the answers of two repetitions of sixteen parties absorbed, one after the other.
pub fn two_repetitions(
    sponge: Sponge,
    rep: Rep,
    other: Rep,
    salt: &[u8],
    values: &[u8],
    more: &[u8],
    circuit: &[u8],
    leaves: &[u8],
    others: &[u8],
) -> Sponge
    requires { (Sized rep) × (Sized other) × (rep.groups ≡ 1) × (other.groups ≡ 1) × (other.n ≡ rep.n) × (other.m ≡ rep.m) × (length salt.now ≤ 64) × (length values.now ≡ values_length rep) × (Elements values.now) × (length more.now ≡ values_length other) × (Elements more.now) × (length circuit.now ≡ circuit_length rep.n rep.m) × (length leaves.now ≡ 16 * rep.groups * rep.s) × (length others.now ≡ 16 * other.groups * other.s) }
    ensures { (P : Params) (f : Circuit) → P.n ≡ rep.n → P.m ≡ rep.m → HoldsCircuit rep.n rep.m f circuit.now → result ≡ absorbed (absorbed sponge (answered f rep values.now (shares_of P rep salt.now leaves.now values.now))) (answered f other more.now (shares_of P other salt.now others.now more.now)) }
{
    let m = rep.m;
    let mut x = [0u64; MOST_EQUATIONS];
    let mut y = [0u64; MOST_EQUATIONS];
    let mut z = [0u64; MOST_EQUATIONS];
    let mut x2 = [0u64; MOST_EQUATIONS];
    let mut y2 = [0u64; MOST_EQUATIONS];
    let mut z2 = [0u64; MOST_EQUATIONS];
    group::two_groups(
        Inputs { rep, salt, values },
        0,
        leaves,
        Inputs {
            rep: other,
            salt,
            values: more,
        },
        0,
        others,
        circuit,
        &mut x[0..m],
        &mut y[0..m],
        &mut z[0..m],
        &mut x2[0..m],
        &mut y2[0..m],
        &mut z2[0..m],
    );
    let first = one_group(sponge, rep, &x[0..m], &mut y[0..m], &z[0..m]);
    one_group(first, other, &x2[0..m], &mut y2[0..m], &z2[0..m])
}

// The answers of a repetition of sixteen parties absorbed, from α, y and z·ε + c. Every v is at hand at once, and no room is needed.
fn one_group(sponge: Sponge, rep: Rep, alphas: &[u64], v: &mut [u64], rest: &[u64]) -> Sponge
    requires { (Sized rep) × (rep.groups ≡ 1) × (length alphas.now ≡ rep.m) × (length v.old ≡ rep.m) × (length rest.now ≡ rep.m) }
    ensures { (circuit salt leaves values : List ℕ) → length values ≡ values_length rep → HoldsAnswers rep 0 (circuit_in rep.n rep.m circuit) values (λ q. share_at rep salt leaves values (16 * 0 + q)) alphas.now v.old rest.now → (P : Params) (f : Circuit) → P.n ≡ rep.n → P.m ≡ rep.m → HoldsCircuit rep.n rep.m f circuit → result ≡ absorbed sponge (answered f rep values (shares_of P rep salt leaves values)) }
{
    let m = rep.m;
    let mut alpha = [0u8; MOST_EQUATIONS];
    let mut given = [0u8; MOST_EQUATIONS];
    let first = packed::absorb_group(sponge, alphas);
    second::folds(alphas, v, rest, &mut alpha[0..m], &mut given[0..m]);
    marks::add_marked(v, &given[0..m], marks::mark(0, rep.hidden));
    packed::absorb_group(first, v)
}
