// Where the parts of a repetition stand: in the words of sixteen parties, in a tape, and in the circuit. Only sizes are looked at.
ghost use Rattle.std.specs.Prelude.{◌≡◌, ◌+◌, ◌*◌, ◌≤◌, ◌<◌};
ghost use Rattle.forms.specs.Circuit.{affine_length};
ghost use Rattle.group.specs.Shares.{Sized, mask_at, helper_at};

use crate::{Rep, TAPES};

// Where the words of the mask begin.
pub fn mask_at(rep: Rep) -> usize
    requires { Sized rep }
    ensures place { result ≡ mask_at rep }
    ensures room { result + rep.m ≤ TAPES }
{
    rep.n.div_ceil(2) * 2
}

// Where the words of the helper begin.
pub fn helper_at(rep: Rep) -> usize
    requires { Sized rep }
    ensures place { result ≡ helper_at rep }
    ensures room { result + rep.m ≤ TAPES }
{
    (rep.n.div_ceil(2) + rep.m.div_ceil(2)) * 2
}

// The bytes of one of the circuit's three tables.
pub fn table(rep: Rep) -> usize
    requires { Sized rep }
    ensures bytes { result ≡ affine_length rep.n rep.m }
    ensures few { result < 8192 }
{
    rep.m.div_ceil(2) + rep.m * rep.n.div_ceil(2)
}
