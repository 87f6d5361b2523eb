// A line of what a call answered.
use std::io;
use std::io::Write;

// A float's bits; a NaN, whose bits are not fixed, is 0.
fn bits(x: f64) -> u64 {
    if x.is_nan() { 0 } else { f64::to_bits(x) }
}

// The number, every word and the bits of every float, sixteen hex digits each, and two digits for every byte.
pub fn print<W: Write>(
    to: &mut W,
    n: u32,
    words: &[u64],
    floats: &[f64],
    bytes: &[u8],
) -> io::Result<()> {
    write!(to, "{n:016x}")?;
    for word in words {
        write!(to, " {word:016x}")?;
    }
    for x in floats {
        write!(to, " {:016x}", bits(*x))?;
    }
    for byte in bytes {
        write!(to, " {byte:02x}")?;
    }
    to.write_all(b"\n")
}
