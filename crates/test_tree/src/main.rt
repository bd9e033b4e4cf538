// Prints the seed tree of repetition 3 for all six sets: the leaves of a root, and for the first, the sixth and the last party the path and the leaves
// that it gives back, with zeros for the hidden one. The file `stdout` is what the independent program prints for `expected tree`.

#![tactic(auto)]

ghost use Rattle.std.specs.Prelude.{◌≡◌, ◌≤◌, ◌^◌, length};

use hashes::Salted;
use std::io;

fn main(rt: HostRuntime) -> io::Result<()> {
    for (set, s, l, n) in [
        (1, 16, 8, 256),
        (2, 16, 4, 16),
        (3, 24, 8, 256),
        (4, 24, 4, 16),
        (5, 32, 8, 256),
        (6, 32, 4, 16),
    ] {
        one_set(rt, set, s, l, n)?;
    }
    Ok(())
}

// The tree of a set: n leaves, 2 to the l, under a root.
#[derive(Clone, Copy)]
struct Tree<'a> {
    set: usize,
    l: usize,
    n: usize,
    of: Salted<'a>,
    root: &'a [u8],
    ghost sizes: { (l ≤ 8) × (n ≡ 2 ^ l) × (n ≤ 256) × (length root.now ≤ 32) },
}

impl Tree<'_> {
    // The leaves of the root.
    fn all_leaves(self, rt: HostRuntime) -> io::Result<()> {
        let mut room = [0u8; 8192];
        let leaves = &mut room[..self.n * self.root.len()];
        tree::leaves(self.of, self.root, self.l, leaves);
        print!(rt; "set {}, leaves, digest", self.set)?;
        lines::digest_line(rt, leaves)
    }

    // The path for a hidden party, and the leaves that it gives back.
    fn one_hidden(self, rt: HostRuntime, hidden: usize) -> io::Result<()>
        requires { (1 ≤ hidden) × (hidden ≤ self.n) }
    {
        let s = self.root.len();
        let mut leaf = [0u8; 32];
        let mut way = [0u8; 256];
        let path = &mut way[..self.l * s];
        tree::path(self.of, self.root, self.l, hidden, &mut leaf[..s], path);
        print!(rt; "set {}, hidden {hidden}, path", self.set)?;
        lines::bytes_line(rt, path)?;
        let mut room = [0u8; 8192];
        let leaves = &mut room[..self.n * s];
        tree::rebuild(self.of, path, self.l, hidden, s, leaves);
        print!(rt; "set {}, hidden {hidden}, rebuilt, digest", self.set)?;
        lines::digest_line(rt, leaves)
    }
}

// The lines of a set with seeds of s bytes and n parties, 2 to the l.
fn one_set(rt: HostRuntime, set: usize, s: usize, l: usize, n: usize) -> io::Result<()>
    requires { (s ≤ 32) × (l ≤ 8) × (n ≡ 2 ^ l) × (6 ≤ n) × (n ≤ 256) }
{
    let mut salt = [0u8; 64];
    let mut root = [0u8; 32];
    lines::progression(3, 1, &mut salt);
    lines::progression(5, 2, &mut root);
    let of = Salted {
        salt: &salt[..2 * s],
        e: 3,
    };
    let tree = Tree {
        set,
        l,
        n,
        of,
        root: &root[..s],
    };
    tree.all_leaves(rt)?;
    for hidden in [1, 6, n] {
        tree.one_hidden(rt, hidden)?;
    }
    Ok(())
}
