// Lists the section that standard input holds. A byte past the 65,536 that a section may have is read, to see that it is too long.
#![tactic(auto)]

use input::read_full;
use listing::list_section;
use std::io;
use std::io::Write;
use text::ROOM;

fn main(rt: HostRuntime) -> io::Result<()> {
    let mut section = [0u8; 65537];
    let n = read_full(&mut rt.stdin().lock(), &mut section)?;
    let mut text = [0u8; ROOM];
    let end = list_section(&section[..n], &mut text);
    rt.stdout().write_all(&text[..end])
}
