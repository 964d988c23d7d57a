// A sum over everything that a work leaves: each number is added to 31 times the sum before it, modulo 1,000,003.
ghost use Rattle.std.specs.Prelude.{◌<◌};

#[derive(Clone, Copy)]
pub(crate) struct Checksum {
    pub sum: u32,
    ghost is_reduced: { sum < 1000003 },
}

impl Checksum {
    pub(crate) const fn new() -> Checksum {
        Checksum { sum: 0 }
    }

    fn plus(self, number: u16) -> Checksum {
        Checksum {
            sum: (31 * self.sum + u32::from(number)) % 1000003,
        }
    }

    pub(crate) fn over<T: Copy + Into<u16>>(self, numbers: &[T]) -> Checksum {
        let mut sum = self;
        for n in numbers {
            sum = sum.plus((*n).into());
        }
        sum
    }
}
