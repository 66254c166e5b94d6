#![tactic(auto)]

ghost use Rattle.std.specs.Prelude.{◌≡◌, ◌+◌, ◌*◌, ◌%◌, ◌^◌, ◌<◌, ◌≤◌};
ghost use Rattle.std.proofs.Math.IntN.{sub_ℕ};
ghost use Rattle.width.specs.Width.{signed, wrap};

// A width in bits, as of an element (EEW, the effective element width).
#[derive(Clone, Copy, PartialEq, Eq)]
pub struct Eew {
    pub bits: u64,
    pub ghost some: { 1 ≤ bits },
    pub ghost most: { bits ≤ 64 },
}

impl Eew {
    // Twice the width, of a widened element.
    pub fn doubled(self) -> Eew
        requires { 2 * self.bits ≤ 64 }
        ensures { result.bits ≡ 2 * self.bits }
    {
        Eew {
            bits: 2 * self.bits,
        }
    }

    // The number of as many ones as the width has bits.
    pub fn ones(self) -> u64
        ensures { result + 1 ≡ 2 ^ self.bits }
    {
        u64::MAX >> (64 - self.bits)
    }

    // The low bits of x.
    pub fn low(self, x: u64) -> u64
        ensures { result ≡ x % 2 ^ self.bits }
    {
        x & self.ones()
    }

    // The sum, wrapped at the width.
    pub fn add(self, a: u64, b: u64) -> u64
        ensures { result ≡ (a + b) % 2 ^ self.bits }
    {
        self.low(a.wrapping_add(b))
    }

    // a - b, wrapped at the width.
    pub fn sub(self, a: u64, b: u64) -> u64
        ensures { result ≡ wrap self.bits (sub_ℕ a b) }
    {
        self.low(a.wrapping_sub(b))
    }

    // The product, wrapped at the width.
    pub fn mul(self, a: u64, b: u64) -> u64
        ensures { result ≡ a * b % 2 ^ self.bits }
    {
        self.low(a.wrapping_mul(b))
    }

    // The signed value of an element: its top bit becomes the i64's, and is copied down again.
    pub fn to_signed(self, x: u64) -> i64
        requires { x < 2 ^ self.bits }
        ensures { result ≡ signed self.bits x }
    {
        let above = 64 - self.bits;
        (x << above).cast_signed() >> above
    }

    // An integer's low bits.
    pub fn from_signed(self, z: i64) -> u64
        ensures { result ≡ wrap self.bits z }
    {
        self.low(z.cast_unsigned())
    }
}
