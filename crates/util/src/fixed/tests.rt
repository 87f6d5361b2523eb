// The bits of each format, and the reading of one that is written as another crate would.
ghost use Rattle.std.specs.Prelude.{refl};
ghost use Rattle.util.specs.Fixed.{least, greatest};
ghost use Rattle.util.specs.FixedCode.{fix};

use super::{Fix1_0_12, Fix1_3_12, Fix1_10_5, Fix1_19_12, Format, FormatBits};

struct Fix1_5_2;

impl Format for Fix1_5_2 {
    const WHOLE: u32 = 5;

    const FRACTION: u32 = 2;

    const LEAST: f64 = -32.0;

    const GREATEST: f64 = 31.75;

    ghost WHOLE = { 5 };

    ghost FRACTION = { 2 };

    ghost LEAST = { least (fix 5 2) };

    ghost GREATEST = { greatest (fix 5 2) };

    ghost fits = { refl };

    ghost is_least = { refl };

    ghost is_greatest = { refl };
}

#[test]
fn formats_are_read(rt: HostRuntime) {
    assert_eq!(rt; Fix1_5_2::read(0xfe), -0.5);
    assert_eq!(rt; Fix1_5_2::limits().greatest, 31.75);
    let bits = [
        Fix1_19_12::BITS,
        Fix1_3_12::BITS,
        Fix1_10_5::BITS,
        Fix1_0_12::BITS,
        Fix1_5_2::BITS,
    ];
    assert_eq!(rt; bits, [32, 16, 16, 13, 8]);
}
