// How many parties a repetition has, and how long their tapes are at most. What they hold, what they answer and why it adds up stand in specs/ and proofs/; the routines over them are the crates above.

#![tactic(auto)]

ghost use Rattle.std.specs.Prelude.{◌≡◌, ◌≤◌};
ghost use Rattle.sets.specs.Sets.{N};

use sets::{MOST_EQUATIONS, MOST_VARIABLES, Params};

// The bytes of the longest tape that a party takes: its shares of secret, mask and helper, each from a whole byte on.
pub const LONGEST_TAPE: usize = (MOST_VARIABLES + 1) / 2 + (MOST_EQUATIONS + 1) / 2 * 2;

// N, the number of parties of a set with l levels of the seed tree.
pub fn count(p: Params) -> usize
    requires { p.l ≤ 8 }
    ensures { result ≡ N p }
{
    1 << p.l
}
