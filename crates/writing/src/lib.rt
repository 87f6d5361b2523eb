// The public call that writes: a PAT0 section of one entry.
#![tactic(auto)]

mod check;

ghost use Rattle.pattern_section.specs.Written.{lent};
ghost use Rattle.writing.specs.WritingCode.{WritesSection};

use check::check_lists;
use pattern_section::put_section;
use util::refusal::Refusal;

// A section of one entry, written from the start of a lent slice: how many bytes it has. Lists are bytes: 16 a name, 20 a track (its name, and how many keys it has),
// 4 a key, track by track.
pub fn write_pattern(
    name: &[u8; 16],
    frames: u16,
    textures: &[u8],
    palettes: &[u8],
    tracks: &[u8],
    keys: &[u8],
    out: &mut [u8],
) -> Result<usize, Refusal>
    ensures { WritesSection (lent name.now frames textures.now palettes.now tracks.now keys.now) out.old out.new result }
{
    let size = check_lists(textures, palettes, tracks, keys, out.len())?;
    put_section(out, size, name, frames, textures, palettes, tracks, keys);
    Ok(size)
}
