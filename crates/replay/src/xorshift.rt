// A xorshift of 64 bits: numbers for functions that are made, and the digest of those that come back.
use complex::bits::{from_bits, to_bits};

#[derive(Clone, Copy)]
pub(crate) struct Xorshift {
    state: u64,
}

impl Xorshift {
    pub(crate) fn new(seed: u64) -> Xorshift {
        Xorshift { state: seed }
    }

    fn step(&mut self) {
        self.state ^= self.state << 13;
        self.state ^= self.state >> 7;
        self.state ^= self.state << 17;
    }

    // The next number, from -0.5 to 0.5.
    pub(crate) fn number(&mut self) -> f64 {
        self.step();
        from_bits(0x3ff0_0000_0000_0000 | self.state >> 12) - 1.5
    }
}

// The state after the bits of every number.
pub(crate) fn digest(numbers: &[f64]) -> u64 {
    let mut mixed = Xorshift::new(0x9e37_79b9_7f4a_7c15);
    for x in numbers {
        mixed.state ^= to_bits(*x);
        mixed.step();
    }
    mixed.state
}
