// The second pass: the sum of all α, the hidden v, and every v absorbed, from what the first pass kept.
// No secret picks a branch or an address; the numbers of the group and of the hidden party are public.
ghost use Rattle.std.specs.Prelude.{◌≡◌, ℕ, ◌*◌, ◌<◌, length, take, drop};
ghost use mathlib.Core.List.{List, flatten};
ghost use Rattle.field.specs.Packing.{Elements, pack};
ghost use Rattle.sponge.specs.Steps.{absorbed};
ghost use Rattle.marks.specs.Marks.{Multiplied};
ghost use Rattle.group.specs.Shares.{Sized};
ghost use Rattle.answers.specs.Passes.{HoldsGroup, VWords, VsOf, Folded};

use crate::packed::absorb_group;
use crate::totals::Totals;
use group::Rep;
use sets::MOST_EQUATIONS;
use sponge::Sponge;

// The rest of the answers once all α are absorbed: the sum of all α, the hidden v, and every v absorbed.
pub fn finish(
    sponge: Sponge,
    rep: Rep,
    sa: &[u64],
    sy: &mut [u64],
    sw: &[u64],
    room: &[u8],
) -> Sponge
    requires { (Sized rep) × (0 < rep.groups) × (length sa.now ≡ rep.m) × (length sy.old ≡ rep.m) × (length sw.now ≡ rep.m) × (length room.now ≡ rep.groups * (16 * rep.m)) }
    ensures { (ys ws vs : List (List ℕ)) → ((alpha given : List ℕ) → Folded rep.m sa.now sy.old sw.now alpha given → VsOf rep alpha given ys ws vs) → ((g : ℕ) → g < rep.groups → HoldsGroup g rep.m ys ws (take (16 * rep.m) (drop (g * (16 * rep.m)) room.now))) → result ≡ absorbed sponge (pack (flatten vs)) }
{
    let m = rep.m;
    let mut alpha = [0u8; MOST_EQUATIONS];
    let mut given = [0u8; MOST_EQUATIONS];
    folds(sa, sy, sw, &mut alpha[0..m], &mut given[0..m]);
    let of = Totals {
        rep,
        alpha: &alpha[0..m],
        given: &given[0..m],
    };
    second_pass(sponge, of, room)
}

// The sum of all α, and the sum of all v but the hidden party's; sy becomes sy times the sum of all α, plus sw.
pub fn folds(sa: &[u64], sy: &mut [u64], sw: &[u64], alpha: &mut [u8], given: &mut [u8])
    requires { (length sy.old ≡ length sa.now) × (length sw.now ≡ length sa.now) × (length alpha.old ≡ length sa.now) × (length given.old ≡ length sa.now) }
    ensures folded { Folded (length sa.now) sa.now sy.old sw.now alpha.new given.new }
    ensures multiplied { Multiplied alpha.new sw.now sy.old sy.new }
{
    marks::fold_into(sa, alpha);
    marks::multiply_add(sy, alpha, sw);
    marks::fold_into(sy, given);
}

// Every v absorbed, group after group.
fn second_pass(sponge: Sponge, of: Totals<'_>, room: &[u8]) -> Sponge
    requires { (0 < of.rep.groups) × (length room.now ≡ of.rep.groups * (16 * of.rep.m)) }
    ensures { let rep = of.entry.rep in let alpha = of.entry.alpha.now in let given = of.entry.given.now in (ys ws vs : List (List ℕ)) → VsOf rep alpha given ys ws vs → ((g : ℕ) → g < rep.groups → HoldsGroup g rep.m ys ws (take (16 * rep.m) (drop (g * (16 * rep.m)) room.now))) → result ≡ absorbed sponge (pack (flatten vs)) }
{
    let size = 16 * of.rep.m;
    let mut s = sponge;
    for g in 0..of.rep.groups {
        let a = g * size;
        s = v_turn(s, of, g, &room[a..a + size]);
    }
    s
}

// The v of one group absorbed.
fn v_turn(sponge: Sponge, of: Totals<'_>, g: usize, part: &[u8]) -> Sponge
    requires { (g < of.rep.groups) × (length part.now ≡ 16 * of.rep.m) }
    ensures { let rep = of.entry.rep in let alpha = of.entry.alpha.now in let given = of.entry.given.now in (ys ws vs : List (List ℕ)) → VsOf rep alpha given ys ws vs → HoldsGroup g rep.m ys ws part.now → result ≡ absorbed sponge (pack (flatten (take 16 (drop (16 * g) vs)))) }
{
    let m = of.rep.m;
    let mut y = [0u64; MOST_EQUATIONS];
    let mut w = [0u64; MOST_EQUATIONS];
    v_words(of, g, part, &mut y[0..m], &mut w[0..m]);
    absorb_group(sponge, &y[0..m])
}

// The v of sixteen parties: y times the sum of all α, plus z·ε + c, and at the hidden party the sum of the others.
fn v_words(of: Totals<'_>, g: usize, part: &[u8], y: &mut [u64], w: &mut [u64])
    requires { (g < of.rep.groups) × (length part.now ≡ 16 * of.rep.m) × (length y.old ≡ of.rep.m) × (length w.old ≡ of.rep.m) }
    ensures { VWords of.entry.rep g of.entry.alpha.now of.entry.given.now part.now y.new }
{
    let half = 8 * of.rep.m;
    let end = half + half;
    let hide = marks::mark(g, of.rep.hidden);
    marks::load_words(&part[0..half], y);
    marks::load_words(&part[half..end], w);
    marks::multiply_add(y, of.alpha, w);
    marks::add_marked(y, of.given, hide);
}
