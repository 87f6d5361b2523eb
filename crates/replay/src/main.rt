// Runs a stored list of calls and prints what each answers: a line with the number and then all that the call was lent, as it stands
// afterwards. The file stdout beside this folder holds what the Rust answers.
//
// The list is how many calls there are, in two bytes; each call in 33 bytes: its code, entry, object or track in two bytes, axis or channel,
// the frame in two bytes, the place (or a value's index) and the room of a lent slice, a name of sixteen bytes, the section's place in the
// list and its length, four bytes each; and then the sections. A material's two sections stand as one, with the length of the first in the
// place of an object or track and the entry of the second in that of an axis or channel. In the place of a section that is to be written stand its
// lists as one, with the lengths of the first three in those of an object or track, of an axis or channel, and of a place. A player's four words stand
// in the place of a name, four bytes each.
#![tactic(auto)]

ghost use Rattle.std.specs.Prelude.{◌≤◌, length};

mod print;
mod stored;

use input::read_full;
use std::io;
use std::io::{Read, Write};
use stored::run;
use util::view::{word16, word32};

// A call on the section of the list that it names; one that the list does not hold is passed over.
fn run_call<W: Write>(to: &mut W, list: &[u8], call: &[u8]) -> io::Result<()>
    requires { 33 ≤ length call.now }
{
    let start = word32(call, 25) as usize;
    let end = start + word32(call, 29) as usize;
    match list.get(start..end) {
        Some(section) => run(to, section, call),
        None => Ok(()),
    }
}

fn run_list<W: Write>(to: &mut W, list: &[u8]) -> io::Result<()> {
    if list.len() < 2 {
        return Ok(());
    }
    let calls = word16(list, 0) as usize;
    for call in list[2..].chunks_exact(33).take(calls) {
        run_call(to, list, call)?;
    }
    Ok(())
}

// What `from` holds, read into `list` and run.
fn run_input<R: Read, W: Write>(from: &mut R, to: &mut W, list: &mut [u8]) -> io::Result<()> {
    let n = read_full(from, list)?;
    run_list(to, &list[..n])
}

fn main(rt: HostRuntime) -> io::Result<()> {
    let mut list = [0u8; 294912];
    run_input(&mut rt.stdin().lock(), &mut rt.stdout(), &mut list)
}
