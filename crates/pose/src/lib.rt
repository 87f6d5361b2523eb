// The matrices of all objects of an entry, at frames one after the other, as floats.
#![tactic(auto)]

ghost use Rattle.std.specs.Prelude.{◌+◌, ◌*◌, ◌<◌, ◌≤◌, length};
ghost use Rattle.animation.specs.AnimationCode.{WholeAnimation, object_curves, InsideObject};
ghost use Rattle.pose.specs.Pose.{frame_bound, clip_into};
ghost use Rattle.pose.specs.PoseCode.{Poses, Filmed};

use animation::{Animation, TRSCurves, Tables};
use matrix::put_floats;
use trs::{object_at, sample_at};
use util::refusal::Refusal;

// Frames are words of sixteen bits.
const FRAME_BOUND: usize = 65536;

// The matrices of object o, of n, at the frames from `first` on: in each pose at the object's own place.
#[tactic(auto, using(crate::proofs::PoseLaws::place_inside))]
fn film_object(
    s: &[u8],
    t: Tables,
    c: TRSCurves,
    o: usize,
    n: usize,
    first: u16,
    frames: usize,
    out: &mut [f64],
)
    requires { InsideObject t s.now c × (o < n) × (first + frames ≤ frame_bound) × (16 * (n * frames) ≤ length out.old) }
    ensures { Filmed (object_curves t s.now c) o n first frames out.old out.new }
{
    let start = first as usize;
    for f in 0..frames {
        let m = sample_at(s, t, c, (start + f) as u16);
        put_floats(out, 16 * (n * f + o), m);
    }
}

// The poses of a whole entry at `frames` frames from `first` on, one after the other, from the start of `out`. Object by object, so that an
// object's curves are found once. Answers how many objects there are.
pub fn film(
    s: &[u8],
    a: Animation,
    first: u16,
    frames: usize,
    out: &mut [f64],
) -> Result<usize, Refusal>
    requires { WholeAnimation s.now a }
    ensures { (w : WholeAnimation s.now a) → Poses (clip_into w.held.objects first frames out.old) result out.old out.new }
{
    if FRAME_BOUND - (first as usize) < frames {
        return Err(Refusal::NoSuchIndex);
    }
    let n = a.objects;
    if out.len() < 16 * (n * frames) {
        return Err(Refusal::SmallSlice);
    }
    let tables = a.tables;
    for o in 0..n {
        film_object(s, tables, object_at(s, a, o), o, n, first, frames, out);
    }
    Ok(n)
}
