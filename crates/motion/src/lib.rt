// The public calls on a section: its kind, the entry check, and finding. Those on an entry of each kind are in jnt, srt and pat. Each public call
// answers every section, every index and every name, and none asks anything of its caller.
#![tactic(auto)]

ghost use Rattle.std.specs.Prelude.{◌≡◌};
ghost use Rattle.util.specs.Reader.{told};
ghost use Rattle.nitro.specs.ContainerCode.{stamp_means};
ghost use Rattle.nitro.specs.EntryCode.{check_means};
ghost use Rattle.calls.specs.Calls.{answer};
ghost use Rattle.calls.specs.Calls as calls;
ghost use Rattle.calls.specs.Kinds.{section_kind};
ghost use Rattle.calls.specs.AnswersCode.{found_means};

use info_block::name::find_name;
use nitro::container::{Kind, read_section, read_stamp};
use nitro::entry::{Checked, check_entry};
use util::refusal::Refusal;

// The kind of the section: the number, or the kind that its stamp says.
pub fn kind(s: &[u8]) -> Result<Kind, Refusal>
    ensures { stamp_means result ≡ section_kind s.now }
{
    read_stamp(s)
}

// The entry check: the number, or the record.
pub fn check(s: &[u8], entry: usize) -> Result<Checked, Refusal>
    ensures { check_means result ≡ answer (calls.check entry) s.now }
{
    let kind = read_stamp(s)?;
    check_entry(s, kind, entry)
}

// The index of the earliest entry with this name, or none if there is no such entry.
pub fn find(s: &[u8], name: &[u8; 16]) -> Result<Option<usize>, Refusal>
    ensures { found_means result ≡ told (answer (calls.find name.now) s.now) }
{
    read_stamp(s)?;
    let b = read_section(s)?;
    Ok(find_name(s, b.names, b.count, name))
}
