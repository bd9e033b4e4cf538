// The numbers of a repetition, from those of the set: what signing and verifying hand to the routines of sixteen parties.

#![tactic(auto)]

ghost use Rattle.std.specs.Prelude.{◌≡◌};
ghost use Rattle.biscuit.specs.Room.{Fits};
ghost use Rattle.reps.specs.Reps.{rep_of};

use group::Rep;
use sets::{LONGEST_SEED, Params};

// The bytes of sixteen leaves of any set.
pub const LEAVES: usize = 16 * LONGEST_SEED;

// The numbers of repetition e, with the hidden party, or 0 where nobody is left out.
pub fn rep_of(p: Params, e: usize, hidden: usize) -> Rep
    requires { Fits p }
    ensures { result ≡ rep_of p e hidden }
{
    Rep {
        s: p.bits / 8,
        n: p.n,
        m: p.m,
        e,
        hidden,
        groups: biscuit::groups_of(p),
    }
}
