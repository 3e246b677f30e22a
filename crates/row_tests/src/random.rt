//! Numbers that look random, the same in each run.

/// Where a sequence of numbers stands.
#[derive(Clone, Copy)]
pub(crate) struct Random {
    state: u64,
}

impl Random {
    /// The sequence of this number.
    pub(crate) fn new(number: u64) -> Random {
        Random {
            state: number.wrapping_mul(0x9E37_79B9_7F4A_7C15) | 1,
        }
    }

    /// The next number, of 53 bits.
    fn next(&mut self) -> u64 {
        let mut state = self.state;
        state ^= state << 13;
        state ^= state >> 7;
        state ^= state << 17;
        self.state = state;
        state.wrapping_mul(0x2545_F491_4F6C_DD1D) >> 11
    }

    /// A number below `count`; 0 where that is 0.
    pub(crate) fn below(&mut self, count: usize) -> usize {
        if count == 0 {
            return 0;
        }
        (self.next() % count as u64) as usize
    }

    /// One of some items, where there are any.
    pub(crate) fn pick<T: Copy>(&mut self, items: &[T]) -> Option<T> {
        let place = self.below(items.len());
        items.get(place).copied()
    }

    /// A number of this width, in bits; one of three is below 3.
    pub(crate) fn bits(&mut self, width: u128) -> u128 {
        if width == 0 || width > 128 {
            return 0;
        }
        let high = self.next() as u128;
        let middle = self.next() as u128;
        let low = self.next() as u128;
        let number = if self.below(3) == 0 {
            low % 3
        } else {
            high << 75 ^ middle << 30 ^ low
        };
        number & (u128::MAX >> (128 - width))
    }
}
