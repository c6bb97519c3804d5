//! Numbers that look random: a counter that goes on by a large odd step, and a mixing of its bits.
//! specs/Mixing.antt has both.
ghost use Rattle.std.specs.Prelude.{◌≡◌, ℕ, ◌+◌, ◌*◌, ◌/◌, ◌%◌, ◌^◌, ◌<◌};
ghost use Rattle.sample.specs.Mixing.{gone_on, mixed};

/// The counter's step.
const STEP: u64 = 0x9e37_79b9_7f4a_7c15;

/// A generator of numbers. The same seed gives the same numbers.
#[derive(Clone, Copy)]
pub struct Random {
    state: u64,
}

/// What a random number stays below: a number of an unsigned type, which the random one then has too.
pub trait Bound: Copy {
    ghost number: { Self → ℕ };

    /// The rest of a number by this one; 0 where this one is 0.
    fn rest_of(self, drawn: u64) -> Self
        ensures rest { 0 < number self → number result ≡ drawn % number self }
        ensures none { number self ≡ 0 → number result ≡ 0 };
}

impl Bound for u8 {
    ghost number = { λ n. n };

    fn rest_of(self, drawn: u64) -> u8 {
        drawn.checked_rem(u64::from(self)).unwrap_or(0) as u8
    }
}

// Once for each type: a usize has no From into u64.
impl Bound for usize {
    ghost number = { λ n. n };

    fn rest_of(self, drawn: u64) -> usize {
        drawn.checked_rem(self as u64).unwrap_or(0) as usize
    }
}

// The bits of a number, mixed.
fn mix(x: u64) -> u64
    ensures { result ≡ mixed x }
{
    let y = (x ^ (x >> 30)).wrapping_mul(0xbf58_476d_1ce4_e5b9);
    let z = (y ^ (y >> 27)).wrapping_mul(0x94d0_49bb_1331_11eb);
    z ^ (z >> 31)
}

impl Random {
    /// The generator with this seed.
    pub fn new(seed: u64) -> Random
        ensures { result.state ≡ seed }
    {
        Random { state: seed }
    }

    /// The next number.
    pub fn next(&mut self) -> u64
        ensures state { self.new.state ≡ gone_on self.old.state }
        ensures value { result ≡ mixed (gone_on self.old.state) }
    {
        self.state = self.state.wrapping_add(STEP);
        mix(self.state)
    }

    /// The next number below `n`; 0 where `n` is 0.
    pub fn below(&mut self, n: u8) -> u8
        ensures state { self.new.state ≡ gone_on self.old.state }
        ensures value { 0 < n → result ≡ mixed (gone_on self.old.state) % n }
        ensures bound { 0 < n → result < n }
        ensures none { n ≡ 0 → result ≡ 0 }
    {
        self.under(n)
    }

    /// The same at any unsigned type. `below` has a type of its own, so that a bare literal may be passed.
    pub fn under<N: Bound>(&mut self, n: N) -> N
        ensures state { self.new.state ≡ gone_on self.old.state }
        ensures value { 0 < N.number n → N.number result ≡ mixed (gone_on self.old.state) % N.number n }
        ensures bound { 0 < N.number n → N.number result < N.number n }
        ensures none { N.number n ≡ 0 → N.number result ≡ 0 }
    {
        n.rest_of(self.next())
    }
}
