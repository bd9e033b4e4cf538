// What a row of the table says for a set: whether the set has the case, the bits that are changed for it, and the numbers that are lent. Names and numbers are printed as they are read.
ghost use Rattle.std.specs.Prelude.{◌≤◌, ◌<◌, IfOk};

use crate::places;
use crate::places::digit;
use crate::table::ROW;
use std::io;

// Where the parts of a row lie.
const CONDITION: usize = 2;

const NAME: usize = 4;

const NAME_END: usize = 44;

const LENT: usize = 45;

const PART: usize = 55;

const PLACE: usize = 56;

const BITS: usize = 57;

// The longest message, and a byte more.
const LONGEST: usize = 32768;

const TOO_LONG: usize = 32769;

// Prints the name of a case and the bits that are changed for it, and says whether the set has it.
pub fn named(rt: HostRuntime, set: usize, row: &[u8; ROW]) -> io::Result<bool> {
    if !has(set, row[CONDITION]) {
        return Ok(false);
    }
    name(rt, set, row)?;
    damage(rt, set, row)?;
    Ok(true)
}

// Whether a set has the cases with this condition: n is odd for sets 3 and 4, and m for the others.
fn has(set: usize, condition: u8) -> bool {
    match condition {
        b'n' => n_is_odd(set),
        b'm' => !n_is_odd(set),
        _ => true,
    }
}

// Whether n of a set is odd.
fn n_is_odd(set: usize) -> bool {
    set == 3 || set == 4
}

// The set and the name of the case.
fn name(rt: HostRuntime, set: usize, row: &[u8; ROW]) -> io::Result<()> {
    let text = &row[..];
    lines::words(rt, b"set ")?;
    lines::number(rt, set)?;
    lines::words(rt, b", ")?;
    lines::words(rt, &text[NAME..NAME_END])
}

// The bits that are changed, where there are some.
fn damage(rt: HostRuntime, set: usize, row: &[u8; ROW]) -> io::Result<()> {
    if row[PART] == b'.' {
        return Ok(());
    }
    lines::words(rt, b" bits ")?;
    lines::number(rt, usize::from(bits(row[BITS])))?;
    lines::words(rt, b" of byte ")?;
    lines::number(rt, places::byte(set, row[PLACE]))?;
    lines::words(rt, b",")
}

// The bits that a mark stands for: the lowest, the highest, the upper four.
fn bits(mark: u8) -> u8 {
    match mark {
        b'u' => 240,
        b'h' => 128,
        _ => 1,
    }
}

// Changes the bits of the case, where there are some: in the signature, or in the store. The same change again puts them back.
pub fn change(set: usize, row: &[u8; ROW], store: &mut [u8], signature: &mut [u8]) {
    let part = row[PART];
    let at = places::byte(set, row[PLACE]);
    let changed = bits(row[BITS]);
    if part == b'.' {
        return;
    }
    if part == b'4' {
        flip(signature, at, changed);
        return;
    }
    flip(store, places::part(part) + at, changed);
}

// Changes bits of a byte, where there is one.
fn flip(bytes: &mut [u8], at: usize, bits: u8) {
    if at < bytes.len() {
        bytes[at] = bytes[at] ^ bits;
    }
}

// The number of the set that is lent.
pub fn number(rt: HostRuntime, set: usize, row: &[u8; ROW]) -> io::Result<usize> {
    let n = marked(set, 0, row[LENT]);
    lines::words(rt, b" lent ")?;
    lines::number(rt, n)?;
    Ok(n)
}

// Where the i-th part that is lent ends, from where it begins, and at most where the next begins.
pub fn lent(
    rt: HostRuntime,
    set: usize,
    row: &[u8; ROW],
    i: usize,
    from: usize,
    next: usize,
) -> io::Result<usize>
    requires { (i < 9) × (from ≤ next) }
    ensures { IfOk result (λ n. (from ≤ n) × (n ≤ next)) }
{
    let n = marked(set, i, row[LENT + i]);
    lines::words(rt, b" ")?;
    lines::number(rt, n)?;
    if next - from < n {
        return Ok(next);
    }
    Ok(from + n)
}

// The number that the i-th mark stands for.
fn marked(set: usize, i: usize, mark: u8) -> usize
    requires { i < 9 }
{
    let right = places::right(set, i);
    match mark {
        b'.' => right,
        b'-' => (right + 999999) % 1000000,
        b'+' => right + 1,
        b'<' => LONGEST,
        b'>' => TOO_LONG,
        _ => digit(mark),
    }
}
