// The section: its stamp, its info block, and where its entries stand.
ghost use Rattle.std.specs.Prelude.{◌≡◌, ◌≤◌, length, Ok};
ghost use Rattle.util.specs.Reader.{run};
ghost use Rattle.nitro.specs.Container.{all_kinds, stamped};
ghost use Rattle.nitro.specs.ContainerCode.{stamp_means, HeaderReads, EntryReads};

use info_block::InfoBlock;
use util::refusal::Refusal;
use util::view::{starts_with, word32};

#[derive(Clone, Copy, PartialEq, Eq)]
pub enum Kind {
    Jnt,
    Srt,
    Pat,
}

// The kind of section that the first four bytes say.
pub fn read_stamp(s: &[u8]) -> Result<Kind, Refusal>
    ensures { run (stamped all_kinds) s.now 0 ≡ stamp_means result }
{
    if s.len() < 4 {
        return Err(Refusal::TooShort);
    }
    if starts_with(s, b"JNT0") {
        return Ok(Kind::Jnt);
    }
    if starts_with(s, b"SRT0") {
        return Ok(Kind::Srt);
    }
    if starts_with(s, b"PAT0") {
        return Ok(Kind::Pat);
    }
    Err(Refusal::WrongStamp)
}

// The rest of the section's header: the size, which is not used, and the info block.
pub fn read_section(s: &[u8]) -> Result<InfoBlock, Refusal>
    requires { 4 ≤ length s.now }
    ensures { HeaderReads s.now result }
{
    if s.len() < 8 {
        return Err(Refusal::TooShort);
    }
    info_block::read(s, 8, 4)
}

// Where an entry stands, where its name does, and where the section's info block ends.
#[derive(Clone, Copy)]
pub struct EntryAt {
    pub offset: u32,
    pub name: usize,
    pub end: usize,
}

// Entry i of a section whose stamp has been read.
pub fn find_entry(s: &[u8], i: usize) -> Result<EntryAt, Refusal>
    requires { 4 ≤ length s.now }
    ensures { EntryReads s.now i result }
{
    let block = read_section(s)?;
    entry_in(s, block, i)
}

// Entry i of an info block.
fn entry_in(s: &[u8], b: InfoBlock, i: usize) -> Result<EntryAt, Refusal>
    requires { HeaderReads s.now (Ok b) }
    ensures { EntryReads s.now i result }
{
    if b.count <= i {
        return Err(Refusal::NoSuchIndex);
    }
    Ok(EntryAt {
        offset: word32(s, b.datums + 4 * i),
        name: b.names + 16 * i,
        end: b.end,
    })
}
