// The curves of an animation's object, and their records.
#![tactic(auto)]

ghost use Rattle.std.specs.Prelude.{◌≡◌, map, ◌+◌, ◌<◌, ◌≤◌, length, take, drop, get_or};
ghost use Rattle.util.specs.Reader.{answered};
ghost use Rattle.util.specs.ReaderCode.{verdict};
ghost use Rattle.curve.specs.Curve.{pair_at, recorded, mix_mat, sample_at};
ghost use Rattle.curve.specs.CurveCode.{InsideOf, pair_means, record_means};
ghost use Rattle.matrix.specs.declared.Mat3 as mat3;
ghost use Rattle.matrix.specs.Matrix.{identity3};
ghost use Rattle.animation.specs.Animation.{on_axis, scale, pivot_of, basis_of, axes_at, matrix_at};
ghost use Rattle.animation.specs.AnimationCode.{WholeAnimation, matrix_for, reference_end, references, rotation_curve, triple_curves, axis_curves, object_curves, InsideTriple, InsideAxes, InsideReferences, InsideRotation, InsideObject};
ghost use Rattle.trs.specs.TrsCode.{ObjectStands, AxisIs, axes_in};

use animation::{
    Animation, AxisCurves, Referred, RotationCurve, TRSCurves, Tables, read_object, refer,
};
use curve::{
    CurveRecord, MeantValue, Pair, SampleList, ScalarCurve, pair_at, record, record_list,
    sample_list, sample_scalar,
};
use matrix::{Col3, Mat3, Mat4, identity, trs};
use rotation::{basis_mat, pivot_mat};
use util::bits::bits;
use util::fixed::{Fix1_3_12, Format};
use util::refusal::Refusal;
use util::view::word16;

// The curves of object o of a whole entry, in which every object is read.
pub fn object_at(s: &[u8], a: Animation, o: usize) -> TRSCurves
    requires { WholeAnimation s.now a × (o < a.objects) }
    ensures { ObjectStands s.now o result }
{
    read_object(s, a.tables, word16(s, 20 + 2 * o) as usize, 0)
        .unwrap()
        .curves
}

// The curve of axis 0, 1 or 2.
fn axis_curve(a: AxisCurves, axis: usize) -> Result<ScalarCurve, Refusal>
    ensures { AxisIs a axis result }
{
    match axis {
        0 => Ok(a.x),
        1 => Ok(a.y),
        2 => Ok(a.z),
        _ => Err(Refusal::NoSuchIndex),
    }
}

// The record of an axis, in an entry that stands at `entry`.
pub fn record_axis<V: MeantValue>(
    s: &[u8],
    a: AxisCurves,
    axis: usize,
    entry: usize,
) -> Result<CurveRecord<V>, Refusal>
    requires inside { InsideOf V.numbers s.now a.x × InsideOf V.numbers s.now a.y × InsideOf V.numbers s.now a.z }
    requires entry { entry + length s.now < 18446744073709551616 }
    ensures { verdict (record_means V.means) result ≡ on_axis (axes_in V.reading s.now a) axis (λ c. answered (recorded entry c)) }
{
    let c = axis_curve(a, axis)?;
    Ok(record(s, c, entry))
}

// One value of an axis of a scale.
pub fn scale_value(s: &[u8], a: AxisCurves, axis: usize, index: usize) -> Result<Pair, Refusal>
    requires { InsideTriple scale s.now a }
    ensures { verdict pair_means result ≡ on_axis (triple_curves scale s.now a) axis (λ c. pair_at c index) }
{
    pair_at(s, axis_curve(a, axis)?, index)
}

// The pivot matrix whose six bytes stand at p.
fn pivot_at(s: &[u8], p: usize) -> Mat3
    requires { p + 6 ≤ length s.now }
    ensures { result ≡ pivot_of (take 6 (drop p s.now)) }
{
    let w = word16(s, p) as u32;
    let a = word16(s, p + 2) as u32;
    let b = word16(s, p + 4) as u32;
    pivot_mat(
        bits(w, 0, 4) as u16,
        bits(w, 4, 8) as u16,
        Fix1_3_12::read(a),
        Fix1_3_12::read(b),
    )
}

// The basis matrix whose ten bytes stand at p.
fn basis_at(s: &[u8], p: usize) -> Mat3
    requires { p + 10 ≤ length s.now }
    ensures { result ≡ basis_of (take 10 (drop p s.now)) }
{
    basis_mat(
        word16(s, p),
        word16(s, p + 2),
        word16(s, p + 4),
        word16(s, p + 6),
        word16(s, p + 8),
    )
}

// The matrix that x refers to.
fn matrix_of(s: &[u8], t: Tables, x: u16) -> Mat3
    requires { reference_end t x ≤ length s.now }
    ensures { result ≡ matrix_for t s.now x }
{
    match refer(t, x) {
        Referred::Pivot(place) => pivot_at(s, place),
        Referred::Basis(place) => basis_at(s, place),
    }
}

// A rotation curve's record, in an entry that stands at `entry`.
pub fn record_rotation(s: &[u8], t: Tables, c: RotationCurve, entry: usize) -> CurveRecord<Mat3>
    requires { InsideRotation t s.now c × (entry + length s.now < 18446744073709551616) }
    ensures { record_means (λ m. m) result ≡ recorded entry (rotation_curve t s.now c) }
{
    match c {
        RotationCurve::None => CurveRecord::None,
        RotationCurve::Constant(x) => CurveRecord::Constant(matrix_of(s, t, x)),
        RotationCurve::Samples(l) => CurveRecord::List(record_list(l, entry)),
    }
}

// Value k of a rotation's list: the matrix that its reference leads to.
fn rotation_value(s: &[u8], t: Tables, l: SampleList, k: usize) -> Mat3
    requires { InsideReferences t s.now l × (k < l.length) }
    ensures { (default : mat3.Mat3) → result ≡ get_or (map (matrix_for t s.now) (references s.now l)) k default }
{
    matrix_of(s, t, word16(s, l.place + 2 * k))
}

// A rotation at a frame: the identity where it has no value.
fn sample_rotation(s: &[u8], t: Tables, c: RotationCurve, frame: u16) -> Mat3
    requires { InsideRotation t s.now c }
    ensures { result ≡ sample_at mix_mat identity3 (rotation_curve t s.now c) frame }
{
    match c {
        RotationCurve::None => identity(),
        RotationCurve::Constant(x) => matrix_of(s, t, x),
        RotationCurve::Samples(l) => {
            if l.length == 0 {
                return identity();
            }
            sample_list(
                l,
                frame,
                |k: usize| -> Mat3
                    requires { InsideReferences t s.now l × (k < l.length) }
                { rotation_value(s, t, l, k) },
            )
        }
    }
}

// The three axes at a frame.
pub fn sample_axes(s: &[u8], a: AxisCurves, default: f64, frame: u16) -> Col3
    requires { InsideAxes s.now a }
    ensures { result ≡ axes_at default (axis_curves s.now a) frame }
{
    Col3 {
        x: sample_scalar(s, a.x, default, frame),
        y: sample_scalar(s, a.y, default, frame),
        z: sample_scalar(s, a.z, default, frame),
    }
}

// An object's matrix at a frame.
pub fn sample_at(s: &[u8], t: Tables, c: TRSCurves, frame: u16) -> Mat4
    requires { InsideObject t s.now c }
    ensures { result ≡ matrix_at (object_curves t s.now c) frame }
{
    trs(
        sample_axes(s, c.trans, 0.0, frame),
        sample_rotation(s, t, c.rotation, frame),
        sample_axes(s, c.scale, 1.0, frame),
    )
}
