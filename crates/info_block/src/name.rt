// Names: sixteen bytes, handed out, and found among an info block's.
ghost use Rattle.std.specs.Prelude.{◌≡◌, ◌+◌, ◌*◌, ◌≤◌, length, take, drop};
ghost use Rattle.util.specs.View.{view};
ghost use Rattle.util.specs.ReaderCode.{verdict};
ghost use Rattle.info_block.specs.Name.{equal, earliest, name_among};
ghost use Rattle.info_block.specs.NameCode.{name_means, found};

use crate::InfoBlock;
use util::refusal::Refusal;
use util::view::word64;

// A name's sixteen bytes: the first eight and the last eight, as little-endian words.
#[derive(Clone, Copy)]
pub struct Name {
    pub lo: u64,
    pub hi: u64,
}

// The name at a position.
pub fn name_at(s: &[u8], p: usize) -> Name
    requires { p + 16 ≤ length s.now }
    ensures { name_means result ≡ take 16 (drop p s.now) }
{
    Name {
        lo: word64(s, p),
        hi: word64(s, p + 8),
    }
}

// Name i of the info block of an entry, if it has such a name.
pub fn name_in(s: &[u8], offset: usize, block: InfoBlock, i: usize) -> Result<Name, Refusal>
    requires { offset + (block.names + 16 * block.count) ≤ length s.now }
    ensures { verdict name_means result ≡ name_among (view 16 (λ bs. bs) block.count (drop block.names (drop offset s.now))) i }
{
    if block.count <= i {
        return Err(Refusal::NoSuchIndex);
    }
    Ok(name_at(s, offset + (block.names + 16 * i)))
}

// Whether the name at p is this one: up to a zero that both have, or all sixteen bytes.
fn same_name(s: &[u8], p: usize, name: &[u8; 16]) -> bool
    requires { p + 16 ≤ length s.now }
    ensures { result ≡ equal name.now (take 16 (drop p s.now)) }
{
    for (k, byte) in name.iter().enumerate() {
        if *byte != s[p + k] {
            return false;
        }
        if *byte == 0 {
            return true;
        }
    }
    true
}

// The index of the earliest name that equals this one, among those that stand at `names`.
pub fn find_name(s: &[u8], names: usize, count: usize, name: &[u8; 16]) -> Option<usize>
    requires { names + 16 * count ≤ length s.now }
    ensures { found (λ i. i) result ≡ earliest name.now (view 16 (λ bs. bs) count (drop names s.now)) }
{
    (0..count).find(|i| same_name(s, names + 16 * *i, name))
}
