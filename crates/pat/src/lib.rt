// The public calls on an entry of a PAT0 section.
#![tactic(auto)]

ghost use Rattle.std.specs.Prelude.{◌≡◌};
ghost use Rattle.util.specs.Reader.{told};
ghost use Rattle.util.specs.ReaderCode.{verdict};
ghost use Rattle.info_block.specs.NameCode.{name_means};
ghost use Rattle.nitro.specs.Container.{pat};
ghost use Rattle.calls.specs.Calls.{on, of_pattern, texture_names, palette_names, pattern_name, chosen, answer};
ghost use Rattle.calls.specs.Calls as calls;
ghost use Rattle.calls.specs.AnswersCode.{list_answer_means, choice_answer_means};
ghost use Rattle.pat.specs.PatCode.{KeysAre};

use calls::Choice;
use info_block::name::{Name, name_in};
use nitro::entry::open_whole;
use pattern::{ItemList, Pattern, read_track_keys, sample};
use util::refusal::Refusal;

// The list of the texture names.
pub fn texture_names(s: &[u8], entry: usize) -> Result<ItemList, Refusal>
    ensures { list_answer_means result ≡ told (answer (on pat entry texture_names) s.now) }
{
    let (e, a) = open_whole::<Pattern>(s, entry)?;
    Ok(ItemList {
        place: e.offset as usize + a.textures.place,
        count: a.textures.count,
    })
}

// The list of the palette names.
pub fn palette_names(s: &[u8], entry: usize) -> Result<ItemList, Refusal>
    ensures { list_answer_means result ≡ told (answer (on pat entry palette_names) s.now) }
{
    let (e, a) = open_whole::<Pattern>(s, entry)?;
    Ok(ItemList {
        place: e.offset as usize + a.palettes.place,
        count: a.palettes.count,
    })
}

// The list of a track's keys.
pub fn keys(s: &[u8], entry: usize, track: usize) -> Result<ItemList, Refusal>
    ensures answers { list_answer_means result ≡ told (answer (on pat entry (of_pattern track calls.keys)) s.now) }
    ensures keys { KeysAre s.now entry track result }
{
    let (e, a) = open_whole::<Pattern>(s, entry)?;
    if a.block.count <= track {
        return Err(Refusal::NoSuchIndex);
    }
    let keys = read_track_keys(s, e.offset as usize + (a.block.datums + 8 * track));
    Ok(ItemList {
        place: e.offset as usize + keys.place,
        count: keys.count,
    })
}

// The name of a track.
pub fn track_name(s: &[u8], entry: usize, track: usize) -> Result<Name, Refusal>
    ensures { verdict name_means result ≡ told (answer (on pat entry (pattern_name track)) s.now) }
{
    let (e, known) = open_whole::<Pattern>(s, entry)?;
    name_in(s, e.offset as usize, known.block, track)
}

// The texture and the palette of a track at a frame.
pub fn choice(s: &[u8], entry: usize, track: usize, frame: u16) -> Result<Choice, Refusal>
    ensures { choice_answer_means result ≡ told (answer (on pat entry (of_pattern track (chosen frame))) s.now) }
{
    let keys = keys(s, entry, track)?;
    if keys.count == 0 {
        return Err(Refusal::EmptyList);
    }
    let key = sample(s, keys, frame);
    Ok(Choice {
        texture: key.texture_idx,
        palette: key.palette_idx,
    })
}
