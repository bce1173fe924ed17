// The digest of numbers in order: one number that tells, but for a rare chance, whether any of them differs.
ghost use Rattle.std.specs.Prelude.{◌<◌};
ghost use Rattle.answers.specs.declared.digest.TheConstants.{PRIME};

// A digest stays below this prime, 2^31 - 1.
const PRIME: usize = 2147483647;

#[derive(Clone, Copy)]
pub(crate) struct Digest {
    pub(crate) number: usize,
    ghost below: { number < PRIME },
}

impl Digest {
    // The digest of no number.
    pub(crate) fn new() -> Digest {
        Digest { number: 0 }
    }

    // The digest of one number more.
    pub(crate) fn with(self, number: u16) -> Digest {
        Digest {
            number: (257 * self.number + usize::from(number) + 1) % PRIME,
        }
    }
}

pub(crate) fn of_bytes(s: &[u8]) -> Digest {
    s.iter().fold(Digest::new(), |digest, byte| digest.with(u16::from(*byte)))
}
