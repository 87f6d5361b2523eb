// The object that a call asks about: where its entry stands, and what is known of it.
ghost use Rattle.jnt.specs.OpenedCode.{ObjectOpens};

use animation::Animation;
use nitro::entry::open_whole;
use util::refusal::Refusal;

// Object `object` of entry `entry` of a JNT0 section, if the entry is whole and has it. The object's curves are read where they are used: they
// are large, and handing them on copies them.
pub fn open_object(s: &[u8], entry: usize, object: usize) -> Result<(usize, Animation), Refusal>
    ensures { ObjectOpens s.now entry object result }
{
    let (e, a) = open_whole::<Animation>(s, entry)?;
    if a.objects <= object {
        return Err(Refusal::NoSuchIndex);
    }
    Ok((e.offset as usize, a))
}
