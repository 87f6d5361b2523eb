// The public calls on an entry of an SRT0 section.
#![tactic(auto)]

ghost use Rattle.std.specs.Prelude.{◌≡◌};
ghost use Rattle.util.specs.Reader.{told};
ghost use Rattle.util.specs.ReaderCode.{verdict};
ghost use Rattle.info_block.specs.NameCode.{name_means};
ghost use Rattle.trs.specs.TrsCode.{curve_means};
ghost use Rattle.nitro.specs.Container.{srt};
ghost use Rattle.calls.specs.Calls.{on, of_material, material_name, uv_matrix, channel_curve, answer};
ghost use Rattle.calls.specs.AnswersCode.{matrix_answer_means};
ghost use Rattle.srt.specs.SrtCode.{TrackFinds};

use curve::{CurveRecord, record};
use info_block::name::{Name, name_in};
use material_animation::{MaterialAnimation, eval_uv_mat, read_channel};
use matrix::Mat4;
use nitro::entry::open_whole;
use util::refusal::Refusal;

// Where a track's datum stands: the offset of its entry, and its place in the entry.
#[derive(Clone, Copy)]
struct TrackAt {
    offset: usize,
    datum: usize,
}

// The name of a track.
pub fn track_name(s: &[u8], entry: usize, track: usize) -> Result<Name, Refusal>
    ensures { verdict name_means result ≡ told (answer (on srt entry (material_name track)) s.now) }
{
    let (e, a) = open_whole::<MaterialAnimation>(s, entry)?;
    name_in(s, e.offset as usize, a.block, track)
}

// Where a track stands.
fn find_track(s: &[u8], entry: usize, track: usize) -> Result<TrackAt, Refusal>
    ensures { TrackFinds s.now entry track result }
{
    let (e, known) = open_whole::<MaterialAnimation>(s, entry)?;
    if known.block.count <= track {
        return Err(Refusal::NoSuchIndex);
    }
    Ok(TrackAt {
        offset: e.offset as usize,
        datum: known.block.datums + 40 * track,
    })
}

// The matrix of a track at a frame. Put into both its callers, so that the matrix is not handed on through memory.
#[inline(always)]
pub fn uv_matrix(s: &[u8], entry: usize, track: usize, frame: u16) -> Result<Mat4, Refusal>
    ensures { matrix_answer_means result ≡ told (answer (on srt entry (of_material track (uv_matrix frame))) s.now) }
{
    let t = find_track(s, entry, track)?;
    Ok(eval_uv_mat(&s[t.offset..], t.datum, frame))
}

// The record of a channel's curve.
pub fn channel_curve(
    s: &[u8],
    entry: usize,
    track: usize,
    channel: usize,
) -> Result<CurveRecord<f64>, Refusal>
    ensures { curve_means result ≡ told (answer (on srt entry (of_material track (channel_curve channel))) s.now) }
{
    let t = find_track(s, entry, track)?;
    if 5 <= channel {
        return Err(Refusal::NoSuchIndex);
    }
    let here = &s[t.offset..];
    let (curve, _) = read_channel(here, t.datum, channel, 0)?;
    Ok(record::<f64>(here, curve, t.offset))
}
