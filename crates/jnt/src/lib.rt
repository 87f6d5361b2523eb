// The public calls on an object of a JNT0 entry, and on all of them.
#![tactic(auto)]

mod opened;

ghost use Rattle.std.specs.Prelude.{◌≡◌};
ghost use Rattle.util.specs.Reader.{told};
ghost use Rattle.util.specs.ReaderCode.{verdict};
ghost use Rattle.curve.specs.CurveCode.{pair_means};
ghost use Rattle.animation.specs.Animation.{translation, scale};
ghost use Rattle.animation.specs.AnimationCode.{triple_means};
ghost use Rattle.trs.specs.TrsCode.{curve_means, scale_means, rotation_answer_means};
ghost use Rattle.gltf.specs.CurveCode.{resampling_means};
ghost use Rattle.gltf.specs.Curve.{slice_of};
ghost use Rattle.pose.specs.PoseCode.{Poses};
ghost use Rattle.nitro.specs.Container.{jnt};
ghost use Rattle.calls.specs.Calls.{answer, on, of_object, curve, scale_value, rotation_curve, resampled};
ghost use Rattle.calls.specs.Calls as calls;
ghost use Rattle.calls.specs.AnswersCode.{matrix_answer_means};

use crate::opened::open_object;
use animation::{Animation, Triple};
use curve::{CurveRecord, Pair};
use gltf::{Frames, resample_triple};
use matrix::{Mat3, Mat4};
use nitro::entry::open_whole;
use pose::film;
use trs::{object_at, record_axis, record_rotation, sample_at};
use util::refusal::Refusal;

// The matrix of an object at a frame.
pub fn matrix(s: &[u8], entry: usize, object: usize, frame: u16) -> Result<Mat4, Refusal>
    ensures { matrix_answer_means result ≡ told (answer (on jnt entry (of_object object (calls.matrix frame))) s.now) }
{
    let (off, a) = open_object(s, entry, object)?;
    let here = &s[off..];
    let c = object_at(here, a, object);
    Ok(sample_at(here, a.tables, c, frame))
}

// The record of an object's translation curve on axis 0, 1 or 2.
pub fn translation_curve(
    s: &[u8],
    entry: usize,
    object: usize,
    axis: usize,
) -> Result<CurveRecord<f64>, Refusal>
    ensures { curve_means result ≡ told (answer (on jnt entry (of_object object (curve translation axis))) s.now) }
{
    let (off, a) = open_object(s, entry, object)?;
    let here = &s[off..];
    let c = object_at(here, a, object);
    record_axis::<f64>(here, c.trans, axis, off)
}

// Likewise of its scale; a constant has two numbers.
pub fn scale_curve(
    s: &[u8],
    entry: usize,
    object: usize,
    axis: usize,
) -> Result<CurveRecord<Pair>, Refusal>
    ensures { scale_means result ≡ told (answer (on jnt entry (of_object object (curve scale axis))) s.now) }
{
    let (off, a) = open_object(s, entry, object)?;
    let here = &s[off..];
    let c = object_at(here, a, object);
    record_axis::<Pair>(here, c.scale, axis, off)
}

// Both numbers of one value of an object's scale, by its axis and its index.
pub fn scale_value(
    s: &[u8],
    entry: usize,
    object: usize,
    axis: usize,
    index: usize,
) -> Result<Pair, Refusal>
    ensures { verdict pair_means result ≡ told (answer (on jnt entry (of_object object (scale_value axis index))) s.now) }
{
    let (off, a) = open_object(s, entry, object)?;
    let here = &s[off..];
    let c = object_at(here, a, object);
    trs::scale_value(here, c.scale, axis, index)
}

// The record of an object's rotation curve.
pub fn rotation_curve(s: &[u8], entry: usize, object: usize) -> Result<CurveRecord<Mat3>, Refusal>
    ensures { rotation_answer_means result ≡ told (answer (on jnt entry (of_object object rotation_curve)) s.now) }
{
    let (off, a) = open_object(s, entry, object)?;
    let here = &s[off..];
    let c = object_at(here, a, object);
    Ok(record_rotation(here, a.tables, c.rotation, off))
}

// An object's translation or scale, resampled onto the common frames of its three curves into a lent slice, from a place onward: x, y, z for
// each frame. Three missing curves have no frames.
pub fn resample(
    s: &[u8],
    entry: usize,
    object: usize,
    which: Triple,
    out: &mut [f64],
    place: usize,
) -> Result<Option<Frames>, Refusal>
    ensures { (resampling_means result out.new ≡ told (answer (on jnt entry (of_object object (resampled (triple_means which) out.old place))) s.now)) × (out.new ≡ slice_of out.old (told (answer (on jnt entry (of_object object (resampled (triple_means which) out.old place))) s.now))) }
{
    let (off, a) = open_object(s, entry, object)?;
    let here = &s[off..];
    resample_triple(here, object_at(here, a, object), which, out, place)
}

// The matrices of all objects at so many frames from `first` on, one pose after the other, into a lent slice from its start: sixteen floats
// each, column by column. Answers how many objects there are.
pub fn clip(
    s: &[u8],
    entry: usize,
    first: u16,
    frames: usize,
    out: &mut [f64],
) -> Result<usize, Refusal>
    ensures { Poses (told (answer (on jnt entry (calls.clip first frames out.old)) s.now)) result out.old out.new }
{
    let (e, a) = open_whole::<Animation>(s, entry)?;
    let off = e.offset as usize;
    film(&s[off..], a, first, frames, out)
}

// The matrices of all objects at a frame: a clip of one frame.
pub fn pose(s: &[u8], entry: usize, frame: u16, out: &mut [f64]) -> Result<usize, Refusal>
    ensures { Poses (told (answer (on jnt entry (calls.pose frame out.old)) s.now)) result out.old out.new }
{
    clip(s, entry, frame, 1, out)
}
