// Elements in the lent bytes: numbers of 1, 2, 4 or 8 bytes, mask bits, and the elements of the register file.
// Registers and VLENB are no struct: tried, contracts are 18 % longer, as each that writes must say that the file is still the one lent.

#![tactic(auto)]

ghost use Rattle.std.specs.Prelude.{◌≡◌, ◌+◌, ◌*◌, ◌/◌, ◌^◌, ◌≤◌, ◌<◌, length, T};
ghost use Rattle.layout.specs.Layout.{bytes_at, with_bytes, bit_at, with_bit_at, element_at, with_element, byte_size, Inside};

// ---- bytes, as many as a constant says, so that the compiler makes one load or store of them; k is the place of a byte in the number

// The number of N bytes, highest first.
fn read<const N: usize>(l: &[u8], a: usize) -> u64
    requires { (N ≤ 8) × (a + N ≤ length l.now) }
    ensures { (result ≡ bytes_at l.now a N) × (result < 2 ^ (8 * N)) }
{
    let mut x: u64 = 0;
    for k in (0..N).rev() {
        x = 256 * x + u64::from(l[a + k]);
    }
    x
}

// The low N bytes of x, lowest first.
fn write<const N: usize>(l: &mut [u8], a: usize, x: u64)
    requires { a + N ≤ length l.old }
    ensures { l.new ≡ with_bytes l.old a N x }
{
    let mut rest = x;
    for k in 0..N {
        l[a + k] = (rest % 256) as u8;
        rest /= 256;
    }
}

// The number of the n bytes from index a. That n is a size of an element is a clause here and elsewhere, and n no enum of the four: the
// definitions have the number (`bytes_at`, the `bytes` of a `Transfer`).
pub fn read_bytes(l: &[u8], a: usize, n: usize) -> u64
    requires { T (byte_size n) × (a + n ≤ length l.now) }
    ensures { (result ≡ bytes_at l.now a n) × (result < 2 ^ (8 * n)) }
{
    match n {
        1 => read::<1>(l, a),
        2 => read::<2>(l, a),
        4 => read::<4>(l, a),
        _ => read::<8>(l, a),
    }
}

// The low n bytes of x are stored from index a on.
pub fn write_bytes(l: &mut [u8], a: usize, n: usize, x: u64)
    requires { T (byte_size n) × (a + n ≤ length l.old) }
    ensures { l.new ≡ with_bytes l.old a n x }
{
    match n {
        1 => write::<1>(l, a, x),
        2 => write::<2>(l, a, x),
        4 => write::<4>(l, a, x),
        _ => write::<8>(l, a, x),
    }
}

// ---- mask bits

// Bit i of the bytes from index a on.
pub fn read_bit(l: &[u8], a: usize, i: usize) -> u64
    requires { a + i / 8 < length l.now }
    ensures { (result ≡ bit_at l.now a i) × (result < 2) }
{
    let x = l[a + i / 8] as u64;
    (x >> ((i % 8) as u64)) % 2
}

// The low bit of x becomes bit i of the bytes from index a on.
pub fn write_bit(l: &mut [u8], a: usize, i: usize, x: u64)
    requires { a + i / 8 < length l.old }
    ensures { l.new ≡ with_bit_at l.old a i x }
{
    let at = a + i / 8;
    let k = (i % 8) as u64;
    let old = l[at] as u64;
    let bit = (old >> k) % 2;
    l[at] = (old - (bit << k) + ((x % 2) << k)) as u8;
}

// ---- elements of the register file. A byte is tested first, at an index worked out before the tests: so the loop over elements is faster.

// Element i of the group that begins at the register reg; of EEW 1, bit i of that register.
pub fn read_element(file: &[u8], vlenb: usize, reg: usize, eew: usize, i: usize) -> u64
    requires { Inside (length file.now) vlenb reg eew i }
    ensures { (result ≡ element_at vlenb file.now reg eew i) × (result < 2 ^ eew) }
{
    let n = eew / 8;
    let at = vlenb * reg + i * n;
    if n == 1 {
        return read::<1>(file, at);
    }
    if eew == 1 {
        return read_bit(file, vlenb * reg, i);
    }
    read_bytes(file, at, n)
}

// The low eew bits of x become that element.
pub fn write_element(file: &mut [u8], vlenb: usize, reg: usize, eew: usize, i: usize, x: u64)
    requires { Inside (length file.old) vlenb reg eew i }
    ensures { file.new ≡ with_element vlenb file.old reg eew i x }
{
    let n = eew / 8;
    let at = vlenb * reg + i * n;
    if n == 1 {
        write::<1>(file, at, x);
        return;
    }
    if eew == 1 {
        write_bit(file, vlenb * reg, i, x);
        return;
    }
    write_bytes(file, at, n, x);
}
