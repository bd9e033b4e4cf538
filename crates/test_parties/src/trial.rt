// A case with what its hashes begin with, and the numbers that the routines of its repetition take.
ghost use Rattle.std.specs.Prelude.{◌≡◌};
ghost use Rattle.test_parties.specs.Laid.{Laid};

use crate::cases::Case;
use group::Rep;
use hashes::Salted;

// A case, and the salt and the number of its repetition.
#[derive(Clone, Copy)]
pub struct Trial<'a> {
    pub case: Case,
    pub of: Salted<'a>,
    pub ghost laid: { Laid case },
}

impl Trial<'_> {
    // The numbers of the repetition, with the hidden party, or 0 where nobody is left out.
    pub fn rep(self, hidden: usize) -> Rep
        ensures { let k = self.entry.case in result ≡ record { s = k.s; n = k.n; m = k.m; e = self.entry.of.e; hidden = hidden; groups = k.groups } }
    {
        let k = self.case;
        Rep {
            s: k.s,
            n: k.n,
            m: k.m,
            e: self.of.e,
            hidden,
            groups: k.groups,
        }
    }
}
