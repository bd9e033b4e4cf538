// The map of the work buffer, and where the packing of a signature begins. What the calls promise stands in specs/, and why every signature is accepted in proofs/.

#![tactic(auto)]

ghost use Rattle.std.specs.Prelude.{◌≡◌};
ghost use Rattle.biscuit.specs.Room.{Fits, LayoutOf, groups};
ghost use Rattle.biscuit.specs.Signature.{packing_at};

use sets::{MOST_EQUATIONS, MOST_VARIABLES, Params};

// The most elements that a repetition is worked from: Δs, Δc, the challenge, t and a given α.
pub const VALUES: usize = MOST_VARIABLES + 4 * MOST_EQUATIONS;

// Where the parts of work begin behind the circuit, and where the last ends.
#[derive(Clone, Copy)]
pub struct Layout {
    pub leaves: usize,
    pub room: usize,
    pub roots: usize,
    pub challenges: usize,
    pub end: usize,
}

// The map of the work buffer.
// Stays: `Fits p` is a clause here and below, and no field of `Params`: `sets::params_of` promises zeros for a number that names no set (what may not change), and zeros do not fit.
#[tactic(auto, using(crate::proofs::Room::sums_bounded, crate::proofs::Room::few_groups))]
pub fn layout_of(p: Params) -> Layout
    requires { Fits p }
    ensures { LayoutOf p result }
{
    let s = p.bits / 8;
    let g = groups_of(p);
    let leaves = forms::circuit_len(p.n, p.m);
    let room = leaves + 16 * g * s;
    let roots = room + g * (16 * p.m);
    let challenges = roots + p.tau * s;
    Layout {
        leaves,
        room,
        roots,
        challenges,
        end: challenges + p.tau * ((p.m + 1) / 2),
    }
}

// How many groups of sixteen parties there are.
pub fn groups_of(p: Params) -> usize
    requires { Fits p }
    ensures { result ≡ groups p }
{
    1 << (p.l - 4)
}

// Where the packed vectors of a signature begin.
#[tactic(auto, using(crate::proofs::Sizes::shown_small, crate::proofs::Sizes::all_shown_small), unfolding(sets::specs::Sets::S))]
pub fn packing_at(p: Params) -> usize
    requires { Fits p }
    ensures { result ≡ packing_at p }
{
    let s = p.bits / 8;
    6 * s + p.tau * (p.l * s + 2 * s)
}
