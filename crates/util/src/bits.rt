// Bit fields of a word, by shift and mask. A word of sixteen bits is widened.
ghost use Rattle.std.specs.Prelude.{◌≡◌, ◌<◌, ◌≤◌};
ghost use Rattle.util.specs.Bits.{bits, bit};

// Bits lo to hi - 1 of x.
pub fn bits(x: u32, lo: u32, hi: u32) -> u32
    requires { (lo < hi) × (hi ≤ 32) }
    ensures { result ≡ bits x lo hi }
{
    (x >> lo) & (u32::MAX >> (32 - (hi - lo)))
}

// Whether bit n of x is set.
pub fn bit(x: u32, n: u32) -> bool
    requires { n < 32 }
    ensures { result ≡ bit x n }
{
    bits(x, n, n + 1) == 1
}
