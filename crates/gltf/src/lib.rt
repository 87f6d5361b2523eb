// Domains of curves, and three curves resampled onto the union of theirs.
#![tactic(auto)]

ghost use Rattle.std.specs.Prelude.{◌≡◌, false, List, ℕ, ◌-◌, ◌*◌, ◌/◌, ◌<◌, ◌≤◌, length};
ghost use Rattle.std.proofs.lemmas.List.Edits.{sets};
ghost use Rattle.curve.specs.CurveCode.{Inside, scalar_curve};
ghost use Rattle.animation.specs.Animation.{default_of};
ghost use Rattle.animation.specs.AnimationCode.{triple_means, axis_curves, curves_of, InsideAxes};
ghost use Rattle.gltf.specs.Curve.{over, is_empty, any_empty, axes_domain, frames_of, sample_axes, slice_of};
ghost use Rattle.gltf.specs.CurveCode.{domain_means, Stepped, resampling_means};
ghost use Rattle.gltf.specs.Curve as spec;

use animation::{AxisCurves, TRSCurves, Triple};
use curve::ScalarCurve;
use trs::sample_axes;
use util::refusal::Refusal;

// Like an Option of a struct, but it is apicula's own enum, with its names.
#[derive(Clone, Copy)]
pub enum CurveDomain {
    None,
    Sampled {
        start_frame: u16,
        end_frame: u16,
        sampling_rate: u16,
    },
}

impl CurveDomain {
    // The domain of a constant: a single value at frame 0.
    pub fn constant() -> Self
        ensures { domain_means result ≡ over 0 1 1 }
    {
        CurveDomain::Sampled {
            start_frame: 0,
            end_frame: 1,
            sampling_rate: 1,
        }
    }

    // The domain of a list of n values.
    pub fn samples(start: u16, end: u16, n: u16) -> Self
        requires { (start < end) × (1 ≤ n) }
        ensures { domain_means result ≡ over start end ((end - start) / n) }
    {
        CurveDomain::Sampled {
            start_frame: start,
            end_frame: end,
            sampling_rate: (end - start) / n,
        }
    }

    pub fn union(self, other: CurveDomain) -> Self
        ensures { domain_means result ≡ spec.union (domain_means self) (domain_means other) }
    {
        match self {
            CurveDomain::None => other,
            CurveDomain::Sampled {
                start_frame: s1,
                end_frame: e1,
                sampling_rate: r1,
            } => match other {
                CurveDomain::None => self,
                CurveDomain::Sampled {
                    start_frame: s2,
                    end_frame: e2,
                    sampling_rate: r2,
                } => CurveDomain::Sampled {
                    start_frame: s1.min(s2),
                    end_frame: e1.max(e2),
                    sampling_rate: r1.min(r2),
                },
            },
        }
    }

    // How many frames there are: start, start + rate, .. below end.
    pub fn num_frames(self) -> usize
        requires { Stepped (domain_means self) }
        ensures { (result ≡ length (frames_of (domain_means self))) × (result < 65536) }
    {
        match self {
            CurveDomain::None => 0,
            CurveDomain::Sampled {
                start_frame,
                end_frame,
                sampling_rate,
            } => (end_frame - start_frame).div_ceil(sampling_rate) as usize,
        }
    }
}

// Whether a curve is a list without values.
fn is_empty(c: ScalarCurve) -> bool
    ensures { (s : List ℕ) → result ≡ is_empty (scalar_curve s c) }
{
    match c {
        ScalarCurve::None => false,
        ScalarCurve::Constant(_) => false,
        ScalarCurve::Samples(l, _) => l.length == 0,
    }
}

// Whether a list without values is among the three curves.
#[tactic(auto, using(crate::proofs::ResampleLaws::or_first, crate::proofs::ResampleLaws::or_second), unfolding(crate::specs::Curve::any_empty))]
fn any_empty(a: AxisCurves) -> bool
    ensures { (s : List ℕ) → result ≡ any_empty (axis_curves s a) }
{
    is_empty(a.x) || is_empty(a.y) || is_empty(a.z)
}

// The domain of a curve that is no empty list.
fn domain(s: &[u8], c: ScalarCurve) -> CurveDomain
    requires { Inside s.now c × (is_empty (scalar_curve s.now c) ≡ false) }
    ensures { (domain_means result ≡ spec.domain (scalar_curve s.now c)) × Stepped (domain_means result) }
{
    match c {
        ScalarCurve::None => CurveDomain::None,
        ScalarCurve::Constant(_) => CurveDomain::constant(),
        ScalarCurve::Samples(l, _) => CurveDomain::samples(l.start, l.end, l.length),
    }
}

// The union of the domains of three curves, none of them an empty list.
fn axes_domain(s: &[u8], a: AxisCurves) -> CurveDomain
    requires { InsideAxes s.now a × (any_empty (axis_curves s.now a) ≡ false) }
    ensures { (domain_means result ≡ axes_domain (axis_curves s.now a)) × Stepped (domain_means result) }
{
    domain(s, a.x).union(domain(s, a.y)).union(domain(s, a.z))
}

// Three curves at the frames of d, three floats for each frame, from the start of `out` on. Written by index: of what `chunks_exact_mut` lends,
// a contract can say the length alone.
fn resample_vec3(s: &[u8], a: AxisCurves, default: f64, d: CurveDomain, out: &mut [f64])
    requires { InsideAxes s.now a × Stepped (domain_means d) × (3 * length (frames_of (domain_means d)) ≤ length out.old) }
    ensures { out.new ≡ sets out.old 0 (sample_axes default (axis_curves s.now a) (frames_of (domain_means d))) }
{
    match d {
        CurveDomain::None => {}
        CurveDomain::Sampled {
            start_frame,
            sampling_rate,
            ..
        } => {
            for k in 0..d.num_frames() {
                let frame = start_frame as usize + sampling_rate as usize * k;
                let v = sample_axes(s, a, default, frame as u16);
                out[3 * k] = v.x;
                out[3 * k + 1] = v.y;
                out[3 * k + 2] = v.z;
            }
        }
    }
}

// What was resampled: from which frame to which, and how many frames were written.
#[derive(Clone, Copy)]
pub struct Frames {
    pub start_frame: u16,
    pub end_frame: u16,
    pub frames: usize,
}

// Three curves resampled into a lent slice, from a place onward. Three missing curves have no frames.
fn resample(
    s: &[u8],
    a: AxisCurves,
    default: f64,
    out: &mut [f64],
    place: usize,
) -> Result<Option<Frames>, Refusal>
    requires { InsideAxes s.now a }
    ensures { (resampling_means result out.new ≡ spec.resample default (axis_curves s.now a) out.old place) × (out.new ≡ slice_of out.old (spec.resample default (axis_curves s.now a) out.old place)) }
{
    if any_empty(a) {
        return Err(Refusal::EmptyList);
    }
    let d = axes_domain(s, a);
    let frames = d.num_frames();
    if out.len() < place || out.len() - place < 3 * frames {
        return Err(Refusal::SmallSlice);
    }
    resample_vec3(s, a, default, d, &mut out[place..]);
    match d {
        CurveDomain::None => Ok(None),
        CurveDomain::Sampled {
            start_frame,
            end_frame,
            ..
        } => Ok(Some(Frames {
            start_frame,
            end_frame,
            frames,
        })),
    }
}

// An object's translation or scale, each with the value where a curve is missing. The curves are resampled where they stand: chosen first, they
// would be copied.
pub fn resample_triple(
    s: &[u8],
    c: TRSCurves,
    which: Triple,
    out: &mut [f64],
    place: usize,
) -> Result<Option<Frames>, Refusal>
    requires { InsideAxes s.now (curves_of which c) }
    ensures { (resampling_means result out.new ≡ spec.resample (default_of (triple_means which)) (axis_curves s.now (curves_of which c)) out.old place) × (out.new ≡ slice_of out.old (spec.resample (default_of (triple_means which)) (axis_curves s.now (curves_of which c)) out.old place)) }
{
    match which {
        Triple::Translation => resample(s, c.trans, 0.0, out, place),
        Triple::Scale => resample(s, c.scale, 1.0, out, place),
    }
}
