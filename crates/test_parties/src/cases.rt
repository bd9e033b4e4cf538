// The cases of a set, with its sizes and where the parts of the work begin. Case 0 is the signer; to the verifiers of cases 1, 2 and 3 the first, the sixth and the last party
// is hidden, and to that of case 4 the sixth, and its path is changed.
ghost use Rattle.std.specs.Prelude.{◌≡◌, ◌*◌, ◌^◌, ◌≤◌, ◌<◌};
ghost use Rattle.std.specs.Option.{ForSome};
ghost use Rattle.forms.specs.Room.{circuit_length};
ghost use Rattle.test_parties.specs.Laid.{Laid};

use sets::{LONGEST_SEED, MOST_EQUATIONS, MOST_VARIABLES};

// The set; the hidden party of a verifier, and whether its path is changed; the bytes of a seed, the variables, the equations, the levels of the tree, the groups of
// sixteen parties and the bytes of a path; and of the work, where the leaves begin, where the room of the answers begins, and its end.
#[derive(Clone, Copy)]
pub struct Case {
    pub set: usize,
    pub hidden: Option<usize>,
    pub changed: bool,
    pub s: usize,
    pub n: usize,
    pub m: usize,
    pub l: usize,
    pub groups: usize,
    pub way: usize,
    pub leaves: usize,
    pub room: usize,
    pub end: usize,
}

// The number of the repetition.
pub const REPETITION: usize = 3;

// The bytes of the longest path, of the vectors of a repetition, and of the longest work.
pub const PATH: usize = 8 * LONGEST_SEED;

pub const VALUES: usize = MOST_VARIABLES + 4 * MOST_EQUATIONS;

pub const WORK: usize = 60768;

// Case i of a set. Every set but 2 is taken as set 5.
pub fn of(set: usize, i: usize) -> Case
    ensures { Laid result }
{
    if set == 2 {
        return sized(2, i, 16, 64, 67, 4, 1);
    }
    sized(5, i, 32, 118, 121, 8, 16)
}

// The same for a set with seeds of s bytes, n variables, m equations, l levels and groups of sixteen parties.
fn sized(set: usize, i: usize, s: usize, n: usize, m: usize, l: usize, groups: usize) -> Case
    requires { (s ≤ 32) × (n ≤ 118) × (16 ≤ m) × (m ≤ 121) × (l ≤ 8) × (0 < groups) × (groups ≤ 16) × (16 * groups ≡ 2 ^ l) × (16 * groups * s ≡ 2 ^ l * s) × (16 * groups * s ≤ 8192) × (l * s ≤ 256) × (groups * (16 * m) ≤ 30976) × (circuit_length n m ≤ 21600) }
    ensures { Laid result }
{
    let leaves = forms::circuit_len(n, m);
    let room = leaves + 16 * groups * s;
    Case {
        set,
        hidden: hidden_of(i, 16 * groups),
        changed: i == 4,
        s,
        n,
        m,
        l,
        groups,
        way: l * s,
        leaves,
        room,
        end: room + groups * (16 * m),
    }
}

// The party that is hidden in case i; none from the signer.
fn hidden_of(i: usize, last: usize) -> Option<usize>
    requires { 6 ≤ last }
    ensures { ForSome result (λ party. (1 ≤ party) × (party ≤ last)) }
{
    match i {
        0 => None,
        1 => Some(1),
        3 => Some(last),
        _ => Some(6),
    }
}
