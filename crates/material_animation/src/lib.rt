// An SRT0 entry: material animations.
#![tactic(auto)]

ghost use Rattle.std.specs.Prelude.{List, ◌≡◌, ◌+◌, ◌*◌, ◌<◌, ◌≤◌, length, drop, Float};
ghost use Rattle.matrix.specs.Matrix.{f0};
ghost use Rattle.util.specs.Reader.{run, each};
ghost use Rattle.util.specs.ReaderCode.{IsRead, outcome, tally_of, tallied};
ghost use Rattle.util.specs.Sums.{total};
ghost use Rattle.util.specs.View.{view};
ghost use Rattle.curve.specs.Curve.{Curve, mix, sample_at};
ghost use Rattle.info_block.specs.NameCode.{found};
ghost use Rattle.material_animation.specs.MaterialAnimation.{channels, material_animation, track_samples, shift_at, shift_of, uv_matrix_at};
ghost use Rattle.material_animation.specs.MaterialAnimationCode.{track_at, ChannelReads, ChannelGives, TrackIs, WholeMaterial, shift_means};

use curve::{Number, SampleList, ScalarCurve, sample_count, sample_scalar};
use info_block::InfoBlock;
use info_block::name::find_name;
use matrix::{Mat4, from_translation};
use util::cur::{Tally, follow};
use util::refusal::Refusal;
use util::view::{byte, word16, word32};

// What is known of a whole entry: its frames, its tracks, its reach, and how many values its lists have.
#[derive(Clone, Copy)]
pub struct MaterialAnimation {
    pub frames: u16,
    pub block: InfoBlock,
    pub reach: usize,
    pub samples: u64,
}

// Channel n of the track whose datum stands at `track`, after parts that reach as far as `reach`: its curve, and the reach after it.
pub fn read_channel(
    s: &[u8],
    track: usize,
    n: usize,
    reach: usize,
) -> Result<(ScalarCurve, usize), Refusal>
    requires { (track + 40 ≤ length s.now) × (n < 5) }
    ensures { ChannelReads s.now track n reach result }
{
    if n < 3 {
        return Ok((ScalarCurve::None, reach));
    }
    let at = track + 8 * n;
    let flags = byte(s, at + 3);
    if flags != 16 {
        return Ok((ScalarCurve::None, reach));
    }
    let frames = word16(s, at);
    let place = word32(s, at + 4) as usize;
    let end = place + 2 * frames as usize;
    if s.len() < end {
        return Err(Refusal::TooShort);
    }
    let list = SampleList {
        start: 0,
        end: frames,
        place,
        length: frames,
        size: 2,
        rate: 0,
    };
    Ok((
        ScalarCurve::Samples(list, Number::Fix1_10_5),
        reach.max(end),
    ))
}

// How far the channels of a track reach, and how many values their lists have: 3 and 4 alone can carry a list.
fn follow_channels(s: &[u8], track: usize, reach: usize) -> Result<Tally, Refusal>
    requires { track + 40 ≤ length s.now }
    ensures { outcome tallied result ≡ tally_of track_samples (run (channels (track_at s.now track)) s.now reach) }
{
    let (u, far) = read_channel(s, track, 3, reach)?;
    let (v, end) = read_channel(s, track, 4, far)?;
    Ok(Tally {
        reach: end,
        samples: sample_count(u) as u64 + sample_count(v) as u64,
    })
}

// The tracks of a block's datums, one after the other: how far they reach, and how many values their lists have.
fn follow_tracks(s: &[u8], block: InfoBlock, reach: usize) -> Result<Tally, Refusal>
    requires { (block.datums + 40 * block.count ≤ length s.now) × (block.count < 256) }
    ensures { outcome tallied result ≡ tally_of (total track_samples) (run (each channels (view 40 (λ bs. bs) block.count (drop block.datums s.now))) s.now reach) }
{
    follow(block.count, reach, |i, far| {
        follow_channels(s, block.datums + 40 * i, far)
    })
}

// An entry, read whole.
pub fn read_mat_anim(s: &[u8]) -> Result<MaterialAnimation, Refusal>
    ensures { IsRead (WholeMaterial s.now) (run material_animation s.now 0) result }
{
    if s.len() < 8 {
        return Err(Refusal::TooShort);
    }
    let block = info_block::read(s, 8, 40)?;
    let tracks = follow_tracks(s, block, block.end)?;
    Ok(MaterialAnimation {
        frames: word16(s, 4),
        block,
        reach: tracks.reach,
        samples: tracks.samples,
    })
}

// Channel n of the track whose datum stands at `track`, at a frame: 0 where it has no value.
fn sample_channel(s: &[u8], track: usize, n: usize, frame: u16) -> f64
    requires { (track + 40 ≤ length s.now) × (n < 5) }
    ensures { ChannelGives s.now track n (λ curve. sample_at mix f0 curve frame) result }
{
    match read_channel(s, track, n, 0) {
        Ok((curve, _)) => sample_scalar(s, curve, 0.0, frame),
        Err(_) => 0.0,
    }
}

// How far a texture is shifted.
#[derive(Clone, Copy)]
pub struct Shift {
    pub u: f64,
    pub v: f64,
}

// How far a track shifts it at a frame, by its channels 3 and 4.
pub fn eval_uv_shift(s: &[u8], track: usize, frame: u16) -> Shift
    requires { track + 40 ≤ length s.now }
    ensures { (curves : List (Curve Float)) → TrackIs s.now track curves → shift_means result ≡ shift_at curves frame }
{
    Shift {
        u: sample_channel(s, track, 3, frame),
        v: sample_channel(s, track, 4, frame),
    }
}

// A track's matrix at a frame: its channels 3 and 4 move the texture.
pub fn eval_uv_mat(s: &[u8], track: usize, frame: u16) -> Mat4
    requires { track + 40 ≤ length s.now }
    ensures { (curves : List (Curve Float)) → TrackIs s.now track curves → result ≡ uv_matrix_at curves frame }
{
    let u = sample_channel(s, track, 3, frame);
    let v = sample_channel(s, track, 4, frame);
    from_translation(u, v, 0.0)
}

// The shift of a name at a frame in an entry that is whole: that of the earliest track with this name, if there is one.
pub fn find_shift(s: &[u8], a: MaterialAnimation, name: &[u8; 16], frame: u16) -> Option<Shift>
    requires { WholeMaterial s.now a }
    ensures { (w : WholeMaterial s.now a) → found shift_means result ≡ shift_of name.now frame w.held }
{
    let track = find_name(s, a.block.names, a.block.count, name)?;
    Some(eval_uv_shift(s, a.block.datums + 40 * track, frame))
}
