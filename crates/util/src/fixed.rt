// Fixed-point numbers as floats: each format is a type with its constants.
ghost use Rattle.std.specs.Prelude.{true, ◌≡◌, ℕ, ◌+◌, ◌-◌, ◌≤◌, ◌<◌, ltb, Float, refl};
ghost use Rattle.std.specs.Float.{binary64};
ghost use Rattle.std.specs.Float.Ieee.{of_int};
ghost use Rattle.util.specs.Fixed.{fix1_19_12, fix1_3_12, fix1_10_5, fix1_0_12, twos, fixed, least, greatest};
ghost use Rattle.util.specs.FixedCode.{fix, limits_of};

use crate::bits::bits;

// How many whole and fraction bits stand behind a format's sign, and its least and greatest value.
#[derive(Clone, Copy)]
pub struct Limits {
    pub whole: u32,
    pub fraction: u32,
    pub least: f64,
    pub greatest: f64,
}

// What a two's-complement number v is worth, whose sign bit weighs half.
fn signed_integer(v: u32, half: u32) -> i64
    requires { v < half + half }
    ensures { result ≡ twos half v }
{
    if v < half {
        v as i64
    } else {
        v as i64 - (half as i64 + half as i64)
    }
}

// .. and as a float.
fn signed(v: u32, half: u32) -> f64
    requires { v < half + half }
    ensures { result ≡ of_int binary64 (twos half v) }
{
    signed_integer(v, half) as f64
}

// The low bits of x as a two's-complement integer, divided by 2 to the fraction bits.
fn number(x: u32, width: u32, fraction: u32) -> f64
    requires { (fraction < width) × (width ≤ 32) }
    ensures { result ≡ fixed (record { whole = width - 1 - fraction; fraction = fraction }) x }
{
    let integer = signed(bits(x, 0, width), 1u32 << (width - 1));
    integer / ((1u32 << fraction) as f64)
}

// A format: a sign bit, whole bits and fraction bits, thirty-two at most. `Sized` lets `read` go by `FormatBits`, which every format has.
pub trait Format: Sized {
    const WHOLE: u32;

    const FRACTION: u32;

    const LEAST: f64;

    const GREATEST: f64;

    ghost WHOLE: { ℕ };

    ghost FRACTION: { ℕ };

    ghost LEAST: { Float };

    ghost GREATEST: { Float };

    ghost fits: { ltb (WHOLE + FRACTION) 32 ≡ true };

    ghost is_least: { LEAST ≡ least (fix WHOLE FRACTION) };

    ghost is_greatest: { GREATEST ≡ greatest (fix WHOLE FRACTION) };

    final fn limits() -> Limits
        ensures { result ≡ limits_of (fix WHOLE FRACTION) }
    {
        Limits {
            whole: Self::WHOLE,
            fraction: Self::FRACTION,
            least: Self::LEAST,
            greatest: Self::GREATEST,
        }
    }

    final fn read(x: u32) -> f64
        ensures { result ≡ fixed (fix WHOLE FRACTION) x }
    {
        number(x, <Self as FormatBits>::BITS, Self::FRACTION)
    }
}

// All bits of a format, the sign's too.
pub trait FormatBits: Format {
    const BITS: u32;

    ghost BITS: { ℕ };

    ghost all_bits: { BITS ≡ 1 + (Self.WHOLE + Self.FRACTION) };
}

impl<F: Format> FormatBits for F {
    const BITS: u32 = 1 + F::WHOLE + F::FRACTION;

    ghost BITS = { 1 + (F.WHOLE + F.FRACTION) };

    ghost all_bits = { refl };
}

#[derive(Clone, Copy)]
pub struct Fix1_19_12;

impl Fix1_19_12 {
    pub const SIGN: u32 = 1;

    pub const BITS: u32 = Self::SIGN + Self::WHOLE + Self::FRACTION;
}

const _: () = prove!(Fix1_19_12::BITS == 32);

impl Format for Fix1_19_12 {
    const WHOLE: u32 = 19;

    const FRACTION: u32 = 12;

    const LEAST: f64 = -524288.0;

    const GREATEST: f64 = 524287.999755859375;

    ghost WHOLE = { 19 };

    ghost FRACTION = { 12 };

    ghost LEAST = { least fix1_19_12 };

    ghost GREATEST = { greatest fix1_19_12 };

    ghost fits = { refl };

    ghost is_least = { refl };

    ghost is_greatest = { refl };
}

#[derive(Clone, Copy)]
pub struct Fix1_3_12;

impl Fix1_3_12 {
    pub const SIGN: u32 = 1;

    pub const BITS: u32 = Self::SIGN + Self::WHOLE + Self::FRACTION;
}

const _: () = prove!(Fix1_3_12::BITS == 16);

impl Format for Fix1_3_12 {
    const WHOLE: u32 = 3;

    const FRACTION: u32 = 12;

    const LEAST: f64 = -8.0;

    const GREATEST: f64 = 7.999755859375;

    ghost WHOLE = { 3 };

    ghost FRACTION = { 12 };

    ghost LEAST = { least fix1_3_12 };

    ghost GREATEST = { greatest fix1_3_12 };

    ghost fits = { refl };

    ghost is_least = { refl };

    ghost is_greatest = { refl };
}

#[derive(Clone, Copy)]
pub struct Fix1_10_5;

impl Fix1_10_5 {
    pub const SIGN: u32 = 1;

    pub const BITS: u32 = Self::SIGN + Self::WHOLE + Self::FRACTION;
}

const _: () = prove!(Fix1_10_5::BITS == 16);

impl Format for Fix1_10_5 {
    const WHOLE: u32 = 10;

    const FRACTION: u32 = 5;

    const LEAST: f64 = -1024.0;

    const GREATEST: f64 = 1023.96875;

    ghost WHOLE = { 10 };

    ghost FRACTION = { 5 };

    ghost LEAST = { least fix1_10_5 };

    ghost GREATEST = { greatest fix1_10_5 };

    ghost fits = { refl };

    ghost is_least = { refl };

    ghost is_greatest = { refl };
}

#[derive(Clone, Copy)]
pub struct Fix1_0_12;

impl Fix1_0_12 {
    pub const SIGN: u32 = 1;

    pub const BITS: u32 = Self::SIGN + Self::WHOLE + Self::FRACTION;
}

const _: () = prove!(Fix1_0_12::BITS == 13);

impl Format for Fix1_0_12 {
    const WHOLE: u32 = 0;

    const FRACTION: u32 = 12;

    const LEAST: f64 = -1.0;

    const GREATEST: f64 = 0.999755859375;

    ghost WHOLE = { 0 };

    ghost FRACTION = { 12 };

    ghost LEAST = { least fix1_0_12 };

    ghost GREATEST = { greatest fix1_0_12 };

    ghost fits = { refl };

    ghost is_least = { refl };

    ghost is_greatest = { refl };
}

#[cfg(test)]
mod tests;
