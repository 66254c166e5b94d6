// Text into a lent buffer, as far as the buffer reaches. The index counts on where the text no longer fits, so that a run over an empty
// buffer tells the length that is needed.

#![tactic(auto)]

ghost use Rattle.std.specs.Prelude.{◌≡◌, [], ◌∷◌, ◌+◌, ◌≤◌, ◌<◌, ◌^◌, ◌%◌, length};
ghost use Rattle.text.specs.Text.{hex_digit, hex, numeral, decimal, short_hex, line, Adds};

// The buffer, and the index of the next byte. How far that may be is a clause, and no ghost field: it differs by what is put.
// Not by `write!`: a `write_str` may require nothing, so the index could wrap, and each call would answer a Result that is always Ok.
#[derive(Drop)]
pub struct Text<'a> {
    pub out: &'a mut [u8],
    pub at: usize,
}

// The lowest hex digit.
fn hex_digit(d: u64) -> u8
    ensures { result ≡ hex_digit (d % 16) }
{
    let low = (d % 16) as u8;
    if low < 10 {
        b'0' + low
    } else {
        b'a' + (low - 10)
    }
}

impl<'a> Text<'a> {
    // A byte. By its index: `get_mut` was tried, of a slice that is written through it the check keeps the length alone.
    fn put_byte(&mut self, byte: u8)
        requires { self.old.at ≤ 2 ^ 32 }
        ensures { Adds self.old (byte ∷ []) self.new }
    {
        if self.at < self.out.len() {
            self.out[self.at] = byte;
        }
        self.at += 1;
    }

    // A text.
    pub fn put(&mut self, text: &[u8])
        requires { self.old.at + length text.now ≤ 2 ^ 32 }
        ensures { Adds self.old text.now self.new }
    {
        for byte in text {
            self.put_byte(*byte);
        }
    }

    // The n lowest hex digits, highest first.
    pub fn put_hex(&mut self, n: u32, x: u64)
        requires { (self.old.at ≤ 2 ^ 31) × (n ≤ 16) }
        ensures { Adds self.old (hex n x) self.new × (self.new.at ≡ self.old.at + n) }
    {
        for k in (0..n).rev() {
            self.put_byte(hex_digit(x >> (4 * k)));
        }
    }

    // A number in a radix, without leading zeros, and of at most n digits.
    fn put_numeral(&mut self, radix: u64, n: u32, x: u64)
        requires { (self.old.at ≤ 2 ^ 31) × (0 < radix) × (radix ≤ 16) × (n ≤ 20) }
        ensures { Adds self.old (numeral radix n x) self.new }
    {
        if n == 0 {
            return;
        }
        if radix <= x {
            self.put_numeral(radix, n - 1, x / radix);
        }
        self.put_byte(hex_digit(x % radix));
    }

    // A number in decimal, without leading zeros.
    pub fn put_decimal(&mut self, x: u64)
        requires { self.old.at ≤ 2 ^ 31 }
        ensures { Adds self.old (decimal x) self.new }
    {
        self.put_numeral(10, 20, x);
    }

    // A number in hex, without leading zeros.
    pub fn put_short_hex(&mut self, x: u64)
        requires { self.old.at ≤ 2 ^ 31 }
        ensures { Adds self.old (short_hex x) self.new }
    {
        self.put_numeral(16, 16, x);
    }

    // A line of a key and a number in hex. It differs from the next in one call: a closure for that call would have the longer contract.
    pub fn hex_line(&mut self, key: &[u8], n: u32, x: u64)
        requires { (self.old.at + length key.now ≤ 2 ^ 30) × (n ≤ 16) }
        ensures { Adds self.old (line key.now (hex n x)) self.new
            × (self.new.at ≡ self.old.at + length key.now + n + 1) }
    {
        self.put(key);
        self.put_hex(n, x);
        self.put_byte(b'\n');
    }

    // A line of a key and a number in decimal.
    pub fn decimal_line(&mut self, key: &[u8], x: u64)
        requires { self.old.at + length key.now ≤ 2 ^ 30 }
        ensures { Adds self.old (line key.now (decimal x)) self.new
            × (self.new.at ≤ self.old.at + length key.now + 21) }
    {
        self.put(key);
        self.put_decimal(x);
        self.put_byte(b'\n');
    }
}
