// Little-endian words of a slice, read and written.
ghost use Rattle.std.specs.Prelude.{◌≡◌, ◌+◌, ◌%◌, ◌≤◌, length, take};
ghost use Rattle.std.proofs.lemmas.List.Edits.{sets};
ghost use Rattle.util.specs.View.{word_at, same, little_bytes};

pub fn byte(s: &[u8], p: usize) -> u8
    requires { p + 1 ≤ length s.now }
    ensures { result ≡ word_at 1 s.now p }
{
    s[p]
}

pub fn word16(s: &[u8], p: usize) -> u16
    requires { p + 2 ≤ length s.now }
    ensures { result ≡ word_at 2 s.now p }
{
    (s[p] as u16) + 256 * (s[p + 1] as u16)
}

pub fn word32(s: &[u8], p: usize) -> u32
    requires { p + 4 ≤ length s.now }
    ensures { result ≡ word_at 4 s.now p }
{
    (word16(s, p) as u32) + 65536 * (word16(s, p + 2) as u32)
}

pub fn word64(s: &[u8], p: usize) -> u64
    requires { p + 8 ≤ length s.now }
    ensures { result ≡ word_at 8 s.now p }
{
    (word32(s, p) as u64) + 0x1_0000_0000 * (word32(s, p + 4) as u64)
}

// Whether the first four bytes are these.
pub fn starts_with(s: &[u8], stamp: &[u8; 4]) -> bool
    requires { 4 ≤ length s.now }
    ensures { result ≡ same 4 (take 4 s.now) stamp.now }
{
    s.starts_with(stamp)
}

fn low_byte(n: u64) -> u8
    ensures { result ≡ n % 256 }
{
    (n % 256) as u8
}

// The n low bytes of x, from `at` on: answers where the next byte goes.
pub fn put_word(out: &mut [u8], at: usize, n: usize, x: u64) -> usize
    requires { at + n ≤ length out.old }
    ensures { (result ≡ at + n) × (out.new ≡ sets out.old at (little_bytes n x)) }
{
    let mut rest = x;
    for i in 0..n {
        out[at + i] = low_byte(rest);
        rest = rest / 256;
    }
    at + n
}

// The eight bytes of n, from `at` on.
pub fn put64(out: &mut [u8], at: usize, n: u64)
    requires { at + 8 ≤ length out.old }
    ensures { out.new ≡ sets out.old at (little_bytes 8 n) }
{
    put_word(out, at, 8, n);
}

// Bytes as they are, from `at` on: answers where the next byte goes.
pub fn put_bytes(out: &mut [u8], at: usize, bytes: &[u8]) -> usize
    requires { at + length bytes.now ≤ length out.old }
    ensures { (result ≡ at + length bytes.now) × (out.new ≡ sets out.old at bytes.now) }
{
    // `copy_from_slice` would have programs in C link memmove too
    for (i, byte) in bytes.iter().enumerate() {
        out[at + i] = *byte;
    }
    at + bytes.len()
}
