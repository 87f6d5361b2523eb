// The public call on two sections: one answer per material, from an SRT0 entry and a PAT0 entry.
#![tactic(auto)]

ghost use Rattle.std.specs.Prelude.{List, ◌≡◌, ℕ};
ghost use Rattle.std.proofs.Math.Option.{Option};
ghost use Rattle.material_animation.specs.MaterialAnimationCode.{shift_means};
ghost use Rattle.pattern.specs.Pattern.{Key};
ghost use Rattle.pattern.specs.PatternCode.{KeyIs};
ghost use Rattle.calls.specs.Material.{joined};
ghost use Rattle.calls.specs.Material as spec;
ghost use Rattle.calls.specs.AnswersCode.{found, material_answer_means};

use calls::{Choice, Material};
use material_animation::{MaterialAnimation, Shift, find_shift};
use nitro::entry::open_whole;
use pattern::{Pattern, PatternKeyframe, find_key};
use util::refusal::Refusal;

// What both sides have of a name, together. A side that has nothing gives its default, and at least one must have something.
fn join(shift: Option<Shift>, key: Option<Option<PatternKeyframe>>) -> Result<Material, Refusal>
    ensures { (frame : ℕ) (keys : Option (List Key)) → KeyIs keys frame key → material_answer_means result ≡ joined frame (found shift_means shift) keys }
{
    if key == Some(None) {
        return Err(Refusal::EmptyList);
    }
    let choice = key.flatten().map(|k| Choice {
        texture: k.texture_idx,
        palette: k.palette_idx,
    });
    if shift.is_none() && choice.is_none() {
        return Err(Refusal::NoSuchTrack);
    }
    let shift = shift.unwrap_or(Shift { u: 0.0, v: 0.0 });
    Ok(Material { shift, choice })
}

// The shift, the texture and the palette of a material at a frame, by the earliest track of its name in an entry of each section.
pub fn material(
    srt: &[u8],
    srt_entry: usize,
    pat: &[u8],
    pat_entry: usize,
    name: &[u8; 16],
    frame: u16,
) -> Result<Material, Refusal>
    ensures { material_answer_means result ≡ spec.material srt_entry pat_entry name.now frame srt.now pat.now }
{
    let (e, a) = open_whole::<MaterialAnimation>(srt, srt_entry)?;
    let (f, b) = open_whole::<Pattern>(pat, pat_entry)?;
    let srt_from = e.offset as usize;
    let pat_from = f.offset as usize;
    join(
        find_shift(&srt[srt_from..], a, name, frame),
        find_key(&pat[pat_from..], b, name, frame),
    )
}
