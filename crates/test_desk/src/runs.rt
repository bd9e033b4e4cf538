// One call of the desk and the rest of its line. Each run lends of every part as many bytes as the case says, and fills outputs and work before the call.
ghost use Rattle.std.specs.Prelude.{◌≡◌, ◌≤◌, length};

use crate::line;
use crate::places::{
    CIRCUIT_SEED, MESSAGE, PUBLIC_KEY, RANDOM, SECRET_KEY, SECRET_SEED, SIGNATURE, STORE,
};
use crate::row_marks::{lent, number};
use crate::table::ROW;
use std::io;

// Room for keys and for work: a byte more than the longest.
const SECRET: usize = 213;

const PUBLIC: usize = 94;

const WORK: usize = 65537;

// Make keys, and put them into the store.
pub fn make_keys(
    rt: HostRuntime,
    set: usize,
    row: &[u8; ROW],
    store: &mut [u8; STORE],
) -> io::Result<()> {
    let mut secret_key = [0u8; SECRET];
    let mut public_key = [0u8; PUBLIC];
    make_keys_parts(rt, set, row, store, &mut secret_key, &mut public_key)?;
    keep(&secret_key, SECRET_KEY, PUBLIC_KEY, store);
    keep(&public_key, PUBLIC_KEY, MESSAGE, store);
    Ok(())
}

// Make keys with the lengths of the case.
fn make_keys_parts(
    rt: HostRuntime,
    set: usize,
    row: &[u8; ROW],
    store: &[u8; STORE],
    secret_key: &mut [u8],
    public_key: &mut [u8],
) -> io::Result<()>
    requires { (length secret_key.old ≡ 213) × (length public_key.old ≡ 94) }
{
    let parts = &store[..];
    let mut work = [0u8; WORK];
    let n = number(rt, set, row)?;
    let a = lent(rt, set, row, 1, CIRCUIT_SEED, SECRET_SEED)?;
    let b = lent(rt, set, row, 2, SECRET_SEED, RANDOM)?;
    let c = lent(rt, set, row, 3, 0, SECRET)?;
    let d = lent(rt, set, row, 4, 0, PUBLIC)?;
    let e = lent(rt, set, row, 8, 0, WORK)?;
    make_keys_line(
        rt,
        n,
        &parts[CIRCUIT_SEED..a],
        &parts[SECRET_SEED..b],
        &mut secret_key[0..c],
        &mut public_key[0..d],
        &mut work[0..e],
    )
}

// The call, and what it leaves.
fn make_keys_line(
    rt: HostRuntime,
    set: usize,
    circuit_seed: &[u8],
    secret_seed: &[u8],
    secret_key: &mut [u8],
    public_key: &mut [u8],
    work: &mut [u8],
) -> io::Result<()> {
    line::fill(secret_key);
    line::fill(public_key);
    line::fill(work);
    let answer = calls::make_keys(set, circuit_seed, secret_seed, secret_key, public_key, work);
    line::ended(rt, answer, work)?;
    line::outputs(rt, secret_key, public_key)
}

// Puts bytes into a part of the store, as many as it has room for.
fn keep(bytes: &[u8], from: usize, next: usize, store: &mut [u8])
    requires { (from ≤ next) × (next ≤ length store.old) }
{
    memory::copy(bytes, &mut store[from..next]);
}

// Public half with the lengths of the case.
pub fn public_half(
    rt: HostRuntime,
    set: usize,
    row: &[u8; ROW],
    store: &[u8; STORE],
) -> io::Result<()> {
    let parts = &store[..];
    let mut public_key = [0u8; PUBLIC];
    let mut work = [0u8; WORK];
    let n = number(rt, set, row)?;
    let a = lent(rt, set, row, 3, SECRET_KEY, PUBLIC_KEY)?;
    let b = lent(rt, set, row, 4, 0, PUBLIC)?;
    let c = lent(rt, set, row, 8, 0, WORK)?;
    public_half_line(
        rt,
        n,
        &parts[SECRET_KEY..a],
        &mut public_key[0..b],
        &mut work[0..c],
    )
}

// The call, and what it leaves.
fn public_half_line(
    rt: HostRuntime,
    set: usize,
    secret_key: &[u8],
    public_key: &mut [u8],
    work: &mut [u8],
) -> io::Result<()> {
    line::fill(public_key);
    line::fill(work);
    let answer = calls::public_half(set, secret_key, public_key, work);
    line::ended(rt, answer, work)?;
    line::output(rt, public_key)
}

// Sign with the lengths of the case.
pub fn sign(
    rt: HostRuntime,
    set: usize,
    row: &[u8; ROW],
    store: &[u8; STORE],
    signature: &mut [u8],
) -> io::Result<()>
    requires { length signature.old ≡ 27349 }
{
    let parts = &store[..];
    let mut work = [0u8; WORK];
    let n = number(rt, set, row)?;
    let a = lent(rt, set, row, 3, SECRET_KEY, PUBLIC_KEY)?;
    let b = lent(rt, set, row, 5, MESSAGE, STORE)?;
    let c = lent(rt, set, row, 6, RANDOM, SECRET_KEY)?;
    let d = lent(rt, set, row, 7, 0, SIGNATURE)?;
    let e = lent(rt, set, row, 8, 0, WORK)?;
    sign_line(
        rt,
        n,
        &parts[SECRET_KEY..a],
        &parts[MESSAGE..b],
        &parts[RANDOM..c],
        &mut signature[0..d],
        &mut work[0..e],
    )
}

// The call, and what it leaves.
fn sign_line(
    rt: HostRuntime,
    set: usize,
    secret_key: &[u8],
    message: &[u8],
    random: &[u8],
    signature: &mut [u8],
    work: &mut [u8],
) -> io::Result<()> {
    line::fill(signature);
    line::fill(work);
    let answer = calls::sign(set, secret_key, message, random, signature, work);
    line::ended(rt, answer, work)?;
    line::output(rt, signature)
}

// Verify with the lengths of the case.
pub fn verify(
    rt: HostRuntime,
    set: usize,
    row: &[u8; ROW],
    store: &[u8; STORE],
    signature: &[u8; SIGNATURE],
) -> io::Result<()> {
    let parts = &store[..];
    let signed = &signature[..];
    let mut work = [0u8; WORK];
    let n = number(rt, set, row)?;
    let a = lent(rt, set, row, 4, PUBLIC_KEY, MESSAGE)?;
    let b = lent(rt, set, row, 5, MESSAGE, STORE)?;
    let c = lent(rt, set, row, 7, 0, SIGNATURE)?;
    let d = lent(rt, set, row, 8, 0, WORK)?;
    verify_line(
        rt,
        n,
        &parts[PUBLIC_KEY..a],
        &parts[MESSAGE..b],
        &signed[0..c],
        &mut work[0..d],
    )
}

// The call, and what it leaves.
fn verify_line(
    rt: HostRuntime,
    set: usize,
    public_key: &[u8],
    message: &[u8],
    signature: &[u8],
    work: &mut [u8],
) -> io::Result<()> {
    line::fill(work);
    let answer = calls::verify(set, public_key, message, signature, work);
    line::ended(rt, answer, work)?;
    lines::words(rt, b"\n")
}
