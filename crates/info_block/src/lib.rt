// The info block: a list of datums, each with a name.
#![tactic(auto)]

pub mod name;

ghost use mathlib.Core.List.{flatten};
ghost use Rattle.std.specs.Prelude.{◌≡◌, ℕ, ◌+◌, ◌*◌, ◌≤◌, length};
ghost use Rattle.std.proofs.lemmas.List.Edits.{sets};
ghost use Rattle.info_block.specs.InfoBlock.{block_head};
ghost use Rattle.info_block.specs.InfoBlockCode.{BlockReads};

use util::refusal::Refusal;
use util::view::{byte, put_word, word16};

// Where the datums and the names stand, how many there are, and where the block ends.
#[derive(Clone, Copy)]
pub struct InfoBlock {
    pub count: usize,
    pub datums: usize,
    pub names: usize,
    pub end: usize,
}

// The info block at p, with datums of `size` bytes.
pub fn read(s: &[u8], p: usize, size: usize) -> Result<InfoBlock, Refusal>
    requires { (p ≤ 64) × (size ≤ 64) }
    ensures { (reach : ℕ) → BlockReads s.now p size reach result }
{
    let n = s.len();
    if n < p + 12 {
        return Err(Refusal::TooShort);
    }
    let count = byte(s, p + 1) as usize;
    let tail = p + 12 + 4 * count;
    let datums = tail + 4;
    let names = datums + size * count;
    let end = names + 16 * count;
    if n < end {
        return Err(Refusal::TooShort);
    }
    if byte(s, p) != 0 {
        return Err(Refusal::BlockStart);
    }
    if word16(s, tail) as usize != size {
        return Err(Refusal::DatumSize);
    }
    Ok(InfoBlock {
        count,
        datums,
        names,
        end,
    })
}

// An info block's fields before its datums, of which each has `size` bytes, from `at` on: answers where the datums go.
pub fn put_head(out: &mut [u8], at: usize, count: usize, size: u64) -> usize
    requires { at + 16 + 4 * count ≤ length out.old }
    ensures { (result ≡ at + 16 + 4 * count) × (out.new ≡ sets out.old at (flatten (block_head count size))) }
{
    let a = put_word(out, at, 1, 0);
    let b = put_word(out, a, 1, count as u64);
    // the four words that nothing reads, as one
    let c = put_word(out, b, 10, 0);
    let d = put_word(out, c, 4 * count, 0);
    let e = put_word(out, d, 2, size);
    put_word(out, e, 2, 0)
}
