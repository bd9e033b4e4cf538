// Words of lanes: one word of 64 bits, or two side by side, which are added and multiplied together.
ghost use Rattle.std.specs.Prelude.{◌≡◌, length, map};
ghost use Rattle.linear.specs.Word.{View, Adds, MultiplesOf, one_word, two_words};
ghost use Rattle.linear.specs.WordLaws.{one_adds, two_adds};

// A word whose lanes hold elements of the field of 16.
pub trait Word: Copy {
    ghost view: { View Self };

    // The word whose lanes are all 0.
    fn zero() -> Self
        ensures { result ≡ view.zero };

    // The sum of two words, lane by lane.
    fn plus(self, other: Self) -> Self
        ensures { result ≡ view.sum self other };

    // The sixteen multiples of a word, written to a part of sixteen words.
    fn multiples(self, table: &mut [Self])
        requires { length table.old ≡ 16 }
        ensures { MultiplesOf view self table.new };

    ghost adds: { Adds view };
}

impl Word for u64 {
    ghost view = { one_word };

    ghost adds = { one_adds };

    fn zero() -> u64 {
        0
    }

    fn plus(self, other: u64) -> u64 {
        self ^ other
    }

    fn multiples(self, table: &mut [u64]) {
        lanes::multiples(self, table);
    }
}

// Two words side by side.
#[derive(Clone, Copy)]
pub struct Pair {
    pub first: u64,
    pub second: u64,
}

impl Pair {
    // The pair of words whose lanes are all 0.
    pub const ZERO: Pair = Pair {
        first: 0,
        second: 0,
    };
}

impl Word for Pair {
    ghost view = { two_words };

    ghost adds = { two_adds };

    fn zero() -> Pair {
        Pair::ZERO
    }

    fn plus(self, other: Pair) -> Pair {
        Pair {
            first: self.first ^ other.first,
            second: self.second ^ other.second,
        }
    }

    fn multiples(self, table: &mut [Pair]) {
        let mut firsts = [0u64; 16];
        let mut seconds = [0u64; 16];
        lanes::multiples(self.first, &mut firsts);
        lanes::multiples(self.second, &mut seconds);
        join(&firsts, &seconds, table);
    }
}

// Writes the words of two vectors side by side.
pub fn join(firsts: &[u64], seconds: &[u64], pairs: &mut [Pair])
    requires { (length firsts.now ≡ length pairs.old) × (length seconds.now ≡ length pairs.old) }
    ensures { (map (λ p. p.first) pairs.new ≡ firsts.now) × (map (λ p. p.second) pairs.new ≡ seconds.now) }
{
    for (i, pair) in pairs.iter_mut().enumerate() {
        *pair = Pair {
            first: firsts[i],
            second: seconds[i],
        };
    }
}

// Parts words that stand side by side into their vectors.
pub fn part(pairs: &[Pair], firsts: &mut [u64], seconds: &mut [u64])
    requires { (length firsts.old ≡ length pairs.now) × (length seconds.old ≡ length pairs.now) }
    ensures { (firsts.new ≡ map (λ p. p.first) pairs.now) × (seconds.new ≡ map (λ p. p.second) pairs.now) }
{
    for (i, pair) in pairs.iter().enumerate() {
        firsts[i] = pair.first;
        seconds[i] = pair.second;
    }
}
