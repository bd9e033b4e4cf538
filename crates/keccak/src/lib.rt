// The permutation Keccak-f[1600] of FIPS 202, section 3, on the 25 lanes of a state array: Lane(x, y) stands at place 5y + x.
// Between the rounds six lanes are kept turned over, which spares χ all but five of its 25 complements. Each step of a round is a function.
// Nothing here branches on a lane or reads at a place that a lane gives.

#![tactic(auto)]

mod table;

ghost use Rattle.std.specs.Prelude.{◌≡◌};
ghost use Rattle.keccak.specs.Keccak.{θ, ρ, π, χ, keccak_f};
ghost use Rattle.keccak.specs.Lanes.{listed, keyed, turned, kept, mixed, moved};

// The 25 lanes of a state, each a number of its own, in the order of the state.
#[derive(Drop)]
struct Lanes(
    u64,
    u64,
    u64,
    u64,
    u64,
    u64,
    u64,
    u64,
    u64,
    u64,
    u64,
    u64,
    u64,
    u64,
    u64,
    u64,
    u64,
    u64,
    u64,
    u64,
    u64,
    u64,
    u64,
    u64,
    u64,
);

// Keccak-f[1600]: 24 rounds.
pub fn permute(a: [u64; 25]) -> [u64; 25]
    ensures { result ≡ keccak_f a }
{
    let s = rounds(Lanes(
        a[0], a[1], a[2], a[3], a[4], a[5], a[6], a[7], a[8], a[9], a[10], a[11], a[12], a[13],
        a[14], a[15], a[16], a[17], a[18], a[19], a[20], a[21], a[22], a[23], a[24],
    ));
    [
        s.0, s.1, s.2, s.3, s.4, s.5, s.6, s.7, s.8, s.9, s.10, s.11, s.12, s.13, s.14, s.15, s.16,
        s.17, s.18, s.19, s.20, s.21, s.22, s.23, s.24,
    ]
}

// 3.3, algorithm 7: the 24 rounds, two a turn.
fn rounds(a: Lanes) -> Lanes
    ensures { listed result ≡ keccak_f (listed a) }
{
    let constants = table::ROUND_CONSTANTS;
    let mut s = turn_over(a);
    for i in 0..12 {
        s = two_rounds(s, constants[2 * i], constants[2 * i + 1]);
    }
    turn_over(s)
}

// The lanes with those turned over that are kept so.
fn turn_over(a: Lanes) -> Lanes
    ensures { (listed result ≡ turned kept (listed a)) × (turned kept (listed result) ≡ listed a) }
{
    Lanes(
        a.0, !a.1, !a.2, a.3, a.4, a.5, a.6, a.7, !a.8, a.9, a.10, a.11, !a.12, a.13, a.14, a.15,
        a.16, !a.17, a.18, a.19, !a.20, a.21, a.22, a.23, a.24,
    )
}

// 3.3: two rounds, whose constants are k and l.
fn two_rounds(a: Lanes, k: u64, l: u64) -> Lanes
    ensures { turned kept (listed result) ≡ keyed (χ (π (ρ (θ (keyed (χ (π (ρ (θ (turned kept (listed a)))))) k))))) l }
{
    let m = theta(a);
    let p = rho_pi(m);
    let c = chi(p);
    let b = keyed(c, k);
    let n = theta(b);
    let q = rho_pi(n);
    let d = chi(q);
    keyed(d, l)
}

// 3.2.1: each lane with the parities of two columns.
fn theta(a: Lanes) -> Lanes
    ensures { turned mixed (listed result) ≡ θ (turned kept (listed a)) }
{
    let c0 = a.0 ^ a.5 ^ a.10 ^ a.15 ^ a.20;
    let c1 = a.1 ^ a.6 ^ a.11 ^ a.16 ^ a.21;
    let c2 = a.2 ^ a.7 ^ a.12 ^ a.17 ^ a.22;
    let c3 = a.3 ^ a.8 ^ a.13 ^ a.18 ^ a.23;
    let c4 = a.4 ^ a.9 ^ a.14 ^ a.19 ^ a.24;
    let d0 = c4 ^ c1.rotate_left(1);
    let d1 = c0 ^ c2.rotate_left(1);
    let d2 = c1 ^ c3.rotate_left(1);
    let d3 = c2 ^ c4.rotate_left(1);
    let d4 = c3 ^ c0.rotate_left(1);
    Lanes(
        a.0 ^ d0,
        a.1 ^ d1,
        a.2 ^ d2,
        a.3 ^ d3,
        a.4 ^ d4,
        a.5 ^ d0,
        a.6 ^ d1,
        a.7 ^ d2,
        a.8 ^ d3,
        a.9 ^ d4,
        a.10 ^ d0,
        a.11 ^ d1,
        a.12 ^ d2,
        a.13 ^ d3,
        a.14 ^ d4,
        a.15 ^ d0,
        a.16 ^ d1,
        a.17 ^ d2,
        a.18 ^ d3,
        a.19 ^ d4,
        a.20 ^ d0,
        a.21 ^ d1,
        a.22 ^ d2,
        a.23 ^ d3,
        a.24 ^ d4,
    )
}

// 3.2.2 and 3.2.3: each lane turned by its offset, and moved to its place.
fn rho_pi(a: Lanes) -> Lanes
    ensures { turned moved (listed result) ≡ π (ρ (turned mixed (listed a))) }
{
    Lanes(
        a.0,
        a.6.rotate_left(44),
        a.12.rotate_left(43),
        a.18.rotate_left(21),
        a.24.rotate_left(14),
        a.3.rotate_left(28),
        a.9.rotate_left(20),
        a.10.rotate_left(3),
        a.16.rotate_left(45),
        a.22.rotate_left(61),
        a.1.rotate_left(1),
        a.7.rotate_left(6),
        a.13.rotate_left(25),
        a.19.rotate_left(8),
        a.20.rotate_left(18),
        a.4.rotate_left(27),
        a.5.rotate_left(36),
        a.11.rotate_left(10),
        a.17.rotate_left(15),
        a.23.rotate_left(56),
        a.2.rotate_left(62),
        a.8.rotate_left(55),
        a.14.rotate_left(39),
        a.15.rotate_left(41),
        a.21.rotate_left(2),
    )
}

// 3.2.4: each lane with the two after it in its row. Where they are turned over or not in turn, `and` with a complement is a plain `and` or `or`.
fn chi(a: Lanes) -> Lanes
    ensures { turned kept (listed result) ≡ χ (turned moved (listed a)) }
{
    Lanes(
        a.0 ^ (a.1 | a.2),
        a.1 ^ (!a.2 | a.3),
        a.2 ^ (a.3 & a.4),
        a.3 ^ (a.4 | a.0),
        a.4 ^ (a.0 & a.1),
        a.5 ^ (a.6 | a.7),
        a.6 ^ (a.7 & a.8),
        a.7 ^ (a.8 | !a.9),
        a.8 ^ (a.9 | a.5),
        a.9 ^ (a.5 & a.6),
        a.10 ^ (a.11 | a.12),
        a.11 ^ (a.12 & a.13),
        a.12 ^ (!a.13 & a.14),
        !a.13 ^ (a.14 | a.10),
        a.14 ^ (a.10 & a.11),
        a.15 ^ (a.16 & a.17),
        a.16 ^ (a.17 | a.18),
        a.17 ^ (!a.18 | a.19),
        !a.18 ^ (a.19 & a.15),
        a.19 ^ (a.15 | a.16),
        a.20 ^ (!a.21 & a.22),
        !a.21 ^ (a.22 | a.23),
        a.22 ^ (a.23 & a.24),
        a.23 ^ (a.24 | a.20),
        a.24 ^ (a.20 & a.21),
    )
}

// 3.2.5, algorithm 6, step 4: lane 0 with k.
fn keyed(mut a: Lanes, k: u64) -> Lanes
    ensures { turned kept (listed result) ≡ keyed (turned kept (listed a)) k }
{
    a.0 ^= k;
    a
}
