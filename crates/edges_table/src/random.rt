// Random numbers: the generator xorshift64, with shifts by 13, 7 and 17.
ghost use Rattle.std.specs.Prelude.{◌<◌};

/// Numbers that follow from a seed.
#[derive(Clone, Copy)]
pub struct Random {
    state: u64,
}

impl Random {
    /// The numbers of a seed. After 0 come zeros alone, so 1 stands for it.
    pub fn new(seed: u64) -> Random {
        Random {
            state: if seed == 0 { 1 } else { seed },
        }
    }

    /// The next number.
    pub fn next(&mut self) -> u64 {
        let mut x = self.state;
        x ^= x << 13;
        x ^= x >> 7;
        x ^= x << 17;
        self.state = x;
        x
    }

    /// A number below another: the lowest eleven bits of the next are left out.
    pub fn below(&mut self, n: u64) -> u64
        requires { 0 < n }
        ensures { result < n }
    {
        (self.next() >> 11) % n
    }
}
