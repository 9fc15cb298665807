//! Numbers that look random, the same for the same seed.

/// The next number is the last one by a multiplication and a sum that wrap; its upper bits are taken.
#[derive(Drop)]
pub struct Random {
    state: u64,
}

impl Random {
    pub fn from_seed(seed: u64) -> Random {
        let mut random = Random {
            state: seed.wrapping_mul(0x9e37_79b9_7f4a_7c15),
        };
        random.turn();
        random
    }

    fn turn(&mut self) {
        self.state = self
            .state
            .wrapping_mul(6_364_136_223_846_793_005)
            .wrapping_add(1_442_695_040_888_963_407);
    }

    /// A number below a count, and 0 below none.
    pub fn below(&mut self, count: u32) -> u32 {
        self.turn();
        if count == 0 {
            return 0;
        }
        (self.state >> 33) as u32 % count
    }

    /// Whether it is one time in so many.
    pub fn one_in(&mut self, count: u32) -> bool {
        self.below(count) == 0
    }

    /// One of some words.
    pub fn pick<'a>(&mut self, words: &[&'a str]) -> &'a str {
        let turned = self.below(1 << 30) as usize;
        match words.get(turned.checked_rem(words.len()).unwrap_or(0)) {
            Some(word) => word,
            None => "",
        }
    }
}
