// A JNT0 entry: animations. The slice starts at the entry, and positions count from there.
#![tactic(auto)]

ghost use Rattle.std.specs.Prelude.{true, false, List, ◌≡◌, ℕ, ◌+◌, ◌*◌, ◌<◌, ◌≤◌, eqb, length, drop};
ghost use Rattle.util.specs.Bits.{bits};
ghost use Rattle.util.specs.View.{little, view};
ghost use Rattle.util.specs.Reader.{run, each};
ghost use Rattle.util.specs.ReaderCode.{outcome, reached, tallied, reach_of, tally_of, Reads, IsRead};
ghost use Rattle.util.specs.Sums.{total};
ghost use Rattle.curve.specs.Curve.{sample_count};
ghost use Rattle.curve.specs.CurveCode.{format_means};
ghost use Rattle.animation.specs.Animation.{numbers_of, left_out_bit, constant_bit, start_of, end_of, width_of, format_of, value_size, list_fields, scalar_list, scalar, axis, axes, animated_axes, reference, rotation_list, rotation, animated_rotation, animated, object, axes_samples, object_samples, animation};
ghost use Rattle.animation.specs.AnimationCode.{triple_means, fields_means, Forward, code_list, ScalarReads, AxesReads, no_curves, referred_means, reference_end, ReachesTo, turned_over, greatest_of, marked_end, last_end, triple_curves, rotation_curve, RotationReads, ObjectReads, still_curves, tables_at, WholeAnimation};
ghost use Rattle.animation.specs.Animation as spec;

use curve::{Number, SampleList, ScalarCurve, sample_count};
use util::bits::{bit, bits};
use util::cur::{Cur, Tally};
use util::refusal::Refusal;
use util::view::{starts_with, word16, word32};

// More objects in an animation are refused.
const MOST_OBJECTS: usize = 999;

// One of an object's two triples of curves.
#[derive(Clone, Copy)]
pub enum Triple {
    Translation,
    Scale,
}

// Where the pivot and the basis data stand. They are handed on beside the section: with both in one struct each contract would name longer paths.
#[derive(Clone, Copy)]
pub struct Tables {
    pub pivot: u32,
    pub basis: u32,
}

// A constant rotation is the reference to its matrix.
#[derive(Clone, Copy)]
pub enum RotationCurve {
    None,
    Constant(u16),
    Samples(SampleList),
}

#[derive(Clone, Copy)]
pub struct AxisCurves {
    pub x: ScalarCurve,
    pub y: ScalarCurve,
    pub z: ScalarCurve,
}

#[derive(Clone, Copy)]
pub struct TRSCurves {
    pub trans: AxisCurves,
    pub rotation: RotationCurve,
    pub scale: AxisCurves,
}

// The curve word and the offset of a list, and the reach after them.
#[derive(Clone, Copy)]
pub struct Fields {
    pub word: u32,
    pub offset: u32,
    pub reach: usize,
}

// The curves of three axes, where reading stands after them, and how many values their lists have.
#[derive(Clone, Copy)]
pub struct AxesRead {
    pub curves: AxisCurves,
    pub at: Cur,
    pub samples: u32,
}

// How far an object reaches, how many values its lists have, and its curves.
#[derive(Clone, Copy)]
pub struct ObjectRead {
    pub reach: usize,
    pub samples: u64,
    pub curves: TRSCurves,
}

// What is known of a whole entry: its frames, its objects, its tables, its reach, and how many values its lists have.
#[derive(Clone, Copy)]
pub struct Animation {
    pub frames: u16,
    pub objects: usize,
    pub tables: Tables,
    pub reach: usize,
    pub samples: u64,
}

impl Triple {
    // How many numbers a value has.
    fn numbers(self) -> u8
        ensures { (result ≡ numbers_of (triple_means self)) × (result ≤ 2) }
    {
        match self {
            Triple::Translation => 1,
            Triple::Scale => 2,
        }
    }

    // The first of the two flag bits that leave the triple out.
    fn left_out_bit(self) -> u32
        ensures { (result ≡ left_out_bit (triple_means self)) × (result ≤ 9) }
    {
        match self {
            Triple::Translation => 1,
            Triple::Scale => 9,
        }
    }

    // The flag bit that makes x constant; those of y and z follow.
    fn constant_bit(self) -> u32
        ensures { (result ≡ constant_bit (triple_means self)) × (result ≤ 11) }
    {
        match self {
            Triple::Translation => 3,
            Triple::Scale => 11,
        }
    }
}

// How far a part reaches that ends at `end`.
fn reach_to(s: &[u8], end: usize, reach: usize) -> Result<usize, Refusal>
    ensures { ReachesTo end (length s.now) reach result }
{
    if s.len() < end {
        Err(Refusal::TooShort)
    } else {
        Ok(reach.max(end))
    }
}

// The curve word at p and the offset behind it.
fn read_fields(s: &[u8], p: usize, reach: usize) -> Result<Fields, Refusal>
    requires { p ≤ 1048576 }
    ensures { Reads fields_means Forward (list_fields p) s.now reach result }
{
    if s.len() < p + 4 {
        return Err(Refusal::TooShort);
    }
    let word = word32(s, p);
    if bits(word, 0, 16) >= bits(word, 16, 28) {
        return Err(Refusal::ListFrames);
    }
    if s.len() < p + 8 {
        return Err(Refusal::TooShort);
    }
    Ok(Fields {
        word,
        offset: word32(s, p + 4),
        reach: reach.max(p + 8),
    })
}

// The list of a curve word.
fn sample_list(w: u32, place: usize, size: u8) -> SampleList
    requires { start_of w < end_of w }
    ensures { result ≡ code_list w place size }
{
    let start = bits(w, 0, 16) as u16;
    let end = bits(w, 16, 28) as u16;
    let rate = bits(w, 30, 32) as u8;
    let length = (end - start) >> rate;
    SampleList {
        start,
        end,
        place,
        length,
        size,
        rate,
    }
}

fn number_of(w: u32) -> Number
    ensures { format_means result ≡ format_of (width_of w) }
{
    if bits(w, 28, 30) == 0 {
        Number::Fix1_19_12
    } else {
        Number::Fix1_3_12
    }
}

// The bytes of a value of a curve word's list.
fn value_size(which: Triple, w: u32) -> u8
    ensures { result ≡ value_size (triple_means which) w }
{
    if bits(w, 28, 30) == 0 {
        4 * which.numbers()
    } else {
        2 * which.numbers()
    }
}

// A constant.
fn read_constant(s: &[u8], which: Triple, at: Cur) -> Result<(ScalarCurve, Cur), Refusal>
    requires { at.pos ≤ 1048576 }
    ensures { ScalarReads (triple_means which) (scalar (triple_means which) true at.pos) s.now at.reach (at.pos + 8) result }
{
    let pos = at.pos + 4 * which.numbers() as usize;
    let reach = reach_to(s, pos, at.reach)?;
    Ok((ScalarCurve::Constant(at.pos), Cur { pos, reach }))
}

// The values of a curve word's list, where its offset points.
fn read_values(
    s: &[u8],
    which: Triple,
    w: u32,
    offset: u32,
    at: Cur,
) -> Result<(ScalarCurve, Cur), Refusal>
    requires { start_of w < end_of w }
    ensures { ScalarReads (triple_means which) (scalar_list (triple_means which) w offset at.pos) s.now at.reach at.pos result }
{
    let size = value_size(which, w);
    let list = sample_list(w, offset as usize, size);
    let end = offset as usize + size as usize * list.length as usize;
    let reach = reach_to(s, end, at.reach)?;
    Ok((
        ScalarCurve::Samples(list, number_of(w)),
        Cur { pos: at.pos, reach },
    ))
}

// A list: its fields, then its values.
fn read_list(s: &[u8], which: Triple, at: Cur) -> Result<(ScalarCurve, Cur), Refusal>
    requires { at.pos ≤ 1048576 }
    ensures { ScalarReads (triple_means which) (scalar (triple_means which) false at.pos) s.now at.reach (at.pos + 8) result }
{
    let fields = read_fields(s, at.pos, at.reach)?;
    let pos = at.pos + 8;
    let reach = fields.reach;
    read_values(s, which, fields.word, fields.offset, Cur { pos, reach })
}

// The curve of axis i.
fn read_axis(
    s: &[u8],
    which: Triple,
    flags: u32,
    i: u32,
    at: Cur,
) -> Result<(ScalarCurve, Cur), Refusal>
    requires { (i ≤ 2) × (at.pos ≤ 1048576) }
    ensures { ScalarReads (triple_means which) (axis (triple_means which) flags i at.pos) s.now at.reach (at.pos + 8) result }
{
    if bit(flags, which.constant_bit() + i) {
        read_constant(s, which, at)
    } else {
        read_list(s, which, at)
    }
}

// How many values the lists of three axes have.
fn axes_samples(x: ScalarCurve, y: ScalarCurve, z: ScalarCurve) -> u32
    ensures { (t : spec.Triple) (s : List ℕ) → result ≡ axes_samples (triple_curves t s (record { x = x; y = y; z = z })) }
{
    sample_count(x) as u32 + sample_count(y) as u32 + sample_count(z) as u32
}

// The curves of x, y and z, one whole before the next.
fn read_axes(s: &[u8], which: Triple, flags: u32, at: Cur) -> Result<AxesRead, Refusal>
    requires { at.pos ≤ 524288 }
    ensures { AxesReads (triple_means which) (axes (triple_means which) flags at.pos) s.now at.reach (at.pos + 24) result }
{
    let (x, y_at) = read_axis(s, which, flags, 0, at)?;
    let (y, z_at) = read_axis(s, which, flags, 1, y_at)?;
    let (z, end) = read_axis(s, which, flags, 2, z_at)?;
    Ok(AxesRead {
        curves: AxisCurves { x, y, z },
        at: end,
        samples: axes_samples(x, y, z),
    })
}

// What a u16 refers to: a record of the pivot or of the basis data, by where it stands.
#[derive(Clone, Copy)]
pub enum Referred {
    Pivot(usize),
    Basis(usize),
}

pub fn refer(t: Tables, x: u16) -> Referred
    ensures { referred_means result ≡ spec.referred t.pivot t.basis x }
{
    let number = bits(x as u32, 0, 15) as usize;
    if bit(x as u32, 15) {
        Referred::Pivot(t.pivot as usize + 6 * number)
    } else {
        Referred::Basis(t.basis as usize + 10 * number)
    }
}

// Where the record ends that x refers to.
fn reference_end(t: Tables, x: u16) -> usize
    ensures { result ≡ reference_end t x }
{
    match refer(t, x) {
        Referred::Pivot(place) => place + 6,
        Referred::Basis(place) => place + 10,
    }
}

// How far the record reaches that x refers to.
fn follow(s: &[u8], t: Tables, x: u16, reach: usize) -> Result<usize, Refusal>
    ensures { outcome reached result ≡ reach_of (run (reference t.pivot t.basis x) s.now reach) }
{
    reach_to(s, reference_end(t, x), reach)
}

// The greatest of some references, and the greatest of them with bit 15 turned: by the first the last record of the pivot data is known that
// they lead to, by the second that of the basis data.
#[derive(Clone, Copy)]
struct Greatest {
    plain: u16,
    turned: u16,
}

// x with bit 15 turned.
fn turn(x: u16) -> u16
    ensures { result ≡ turned_over x }
{
    x ^ 0x8000
}

// The greatest of the n references at `list`: no record that they lead to ends after the last of these. The loop has no branch and no way out, so
// that the compiler takes many references in a step.
fn greatest_of(s: &[u8], list: usize, n: usize) -> Greatest
    requires { list + 2 * n ≤ length s.now }
    ensures { (t : Tables) → last_end t result ≡ greatest_of (reference_end t) (view 2 little n (drop list s.now)) }
{
    let mut plain = 0u16;
    let mut turned = 0u16;
    for i in 0..n {
        let x = word16(s, list + 2 * i);
        plain = plain.max(x);
        turned = turned.max(turn(x));
    }
    Greatest { plain, turned }
}

// Where the record ends that x refers to, if `mark` has bit 15 set.
fn marked_end(t: Tables, mark: u16, x: u16) -> usize
    ensures { result ≡ marked_end t mark x }
{
    if bit(mark as u32, 15) {
        reference_end(t, x)
    } else {
        0
    }
}

// Where the last of the records ends that the references lead to.
fn last_end(t: Tables, g: Greatest) -> usize
    ensures { result ≡ last_end t g }
{
    marked_end(t, g.plain, g.plain).max(marked_end(t, g.turned, turn(g.turned)))
}

// How far the records reach that the n references at `list` lead to: as far as the last of them.
fn follow_all(s: &[u8], t: Tables, list: usize, n: usize, reach: usize) -> Result<usize, Refusal>
    requires { list + 2 * n ≤ length s.now }
    ensures { outcome reached result ≡ reach_of (run (each (reference t.pivot t.basis) (view 2 little n (drop list s.now))) s.now reach) }
{
    reach_to(s, last_end(t, greatest_of(s, list, n)), reach)
}

// A constant rotation: a reference, and two bytes skipped.
fn read_constant_rotation(s: &[u8], t: Tables, at: Cur) -> Result<(RotationCurve, Cur), Refusal>
    requires { at.pos ≤ 1048576 }
    ensures { RotationReads (rotation t.pivot t.basis true at.pos) t s.now at.reach (at.pos + 8) result }
{
    let pos = at.pos + 4;
    let far = reach_to(s, pos, at.reach)?;
    let x = word16(s, at.pos);
    let reach = follow(s, t, x, far)?;
    Ok((RotationCurve::Constant(x), Cur { pos, reach }))
}

// The references of a curve word's list, where its offset points, followed in order.
fn read_references(
    s: &[u8],
    t: Tables,
    w: u32,
    offset: u32,
    at: Cur,
) -> Result<(RotationCurve, Cur), Refusal>
    requires { start_of w < end_of w }
    ensures { RotationReads (rotation_list t.pivot t.basis w offset at.pos) t s.now at.reach at.pos result }
{
    let place = offset as usize;
    let list = sample_list(w, place, 2);
    let n = list.length as usize;
    let end = place + 2 * n;
    let far = reach_to(s, end, at.reach)?;
    let reach = follow_all(s, t, place, n, far)?;
    Ok((RotationCurve::Samples(list), Cur { pos: at.pos, reach }))
}

// A list of rotations: its fields, then its references.
fn read_rotation_list(s: &[u8], t: Tables, at: Cur) -> Result<(RotationCurve, Cur), Refusal>
    requires { at.pos ≤ 1048576 }
    ensures { RotationReads (rotation t.pivot t.basis false at.pos) t s.now at.reach (at.pos + 8) result }
{
    let fields = read_fields(s, at.pos, at.reach)?;
    let pos = at.pos + 8;
    let reach = fields.reach;
    read_references(s, t, fields.word, fields.offset, Cur { pos, reach })
}

fn no_axes() -> AxisCurves
    ensures { result ≡ no_curves }
{
    AxisCurves {
        x: ScalarCurve::None,
        y: ScalarCurve::None,
        z: ScalarCurve::None,
    }
}

// Whether the two flag bits from lo on are clear.
fn is_clear(flags: u32, lo: u32) -> bool
    requires { lo ≤ 14 }
    ensures { result ≡ eqb (bits flags lo (lo + 2)) 0 }
{
    bits(flags, lo, lo + 2) == 0
}

// Three axes where they are animated, and none where they are left out.
fn read_animated_axes(s: &[u8], which: Triple, flags: u32, at: Cur) -> Result<AxesRead, Refusal>
    requires { at.pos ≤ 524288 }
    ensures { AxesReads (triple_means which) (animated_axes (triple_means which) flags at.pos) s.now at.reach (at.pos + 24) result }
{
    if is_clear(flags, which.left_out_bit()) {
        read_axes(s, which, flags, at)
    } else {
        Ok(AxesRead {
            curves: no_axes(),
            at,
            samples: 0,
        })
    }
}

// A rotation where it is animated, and none where it is left out.
fn read_animated_rotation(
    s: &[u8],
    t: Tables,
    flags: u32,
    at: Cur,
) -> Result<(RotationCurve, Cur), Refusal>
    requires { at.pos ≤ 1048576 }
    ensures { RotationReads (animated_rotation t.pivot t.basis flags at.pos) t s.now at.reach (at.pos + 8) result }
{
    if !is_clear(flags, 6) {
        return Ok((RotationCurve::None, at));
    }
    if bit(flags, 8) {
        read_constant_rotation(s, t, at)
    } else {
        read_rotation_list(s, t, at)
    }
}

// How many references a rotation's list has; a constant is no list.
fn rotation_samples(c: RotationCurve) -> u16
    ensures { (t : Tables) (s : List ℕ) → result ≡ sample_count (rotation_curve t s c) }
{
    match c {
        RotationCurve::None => 0,
        RotationCurve::Constant(_) => 0,
        RotationCurve::Samples(l) => l.length,
    }
}

// The curves of an object that nothing animates.
fn still_curves() -> TRSCurves
    ensures { result ≡ still_curves }
{
    TRSCurves {
        trans: no_axes(),
        rotation: RotationCurve::None,
        scale: no_axes(),
    }
}

// The fields of an animated object: translation, rotation, scale.
fn read_animated(s: &[u8], t: Tables, flags: u32, at: Cur) -> Result<ObjectRead, Refusal>
    requires { at.pos ≤ 131072 }
    ensures { ObjectReads (animated t.pivot t.basis flags at.pos) t s.now at.reach result }
{
    let trans = read_animated_axes(s, Triple::Translation, flags, at)?;
    let (rotation, scale_at) = read_animated_rotation(s, t, flags, trans.at)?;
    let scale = read_animated_axes(s, Triple::Scale, flags, scale_at)?;
    Ok(ObjectRead {
        reach: scale.at.reach,
        samples: trans.samples as u64 + rotation_samples(rotation) as u64 + scale.samples as u64,
        curves: TRSCurves {
            trans: trans.curves,
            rotation,
            scale: scale.curves,
        },
    })
}

// The object at p.
pub fn read_object(s: &[u8], t: Tables, p: usize, reach: usize) -> Result<ObjectRead, Refusal>
    requires { p ≤ 65535 }
    ensures { ObjectReads (object t.pivot t.basis p) t s.now reach result }
{
    let pos = p + 4;
    let far = reach_to(s, pos, reach)?;
    let flags = word16(s, p) as u32;
    if bit(flags, 0) {
        return Ok(ObjectRead {
            reach: far,
            samples: 0,
            curves: still_curves(),
        });
    }
    read_animated(s, t, flags, Cur { pos, reach: far })
}

// How far an object reaches, and how many values its lists have.
fn follow_object(s: &[u8], t: Tables, p: usize, reach: usize) -> Result<Tally, Refusal>
    requires { p ≤ 65535 }
    ensures { outcome tallied result ≡ tally_of object_samples (run (object t.pivot t.basis p) s.now reach) }
{
    let object = read_object(s, t, p, reach)?;
    Ok(Tally {
        reach: object.reach,
        samples: object.samples,
    })
}

// How far the n objects reach whose offsets stand at 20, and how many values their lists have.
fn follow_objects(s: &[u8], t: Tables, n: usize, reach: usize) -> Result<Tally, Refusal>
    requires { (20 + 2 * n ≤ length s.now) × (n < 65536) }
    ensures { outcome tallied result ≡ tally_of (total object_samples) (run (each (object t.pivot t.basis) (view 2 little n (drop 20 s.now))) s.now reach) }
{
    let mut far = reach;
    let mut samples = 0u64;
    for k in 0..n {
        let item = follow_object(s, t, word16(s, 20 + 2 * k) as usize, far)?;
        far = item.reach;
        samples += item.samples;
    }
    Ok(Tally {
        reach: far,
        samples,
    })
}

fn read_tables(s: &[u8]) -> Tables
    requires { 20 ≤ length s.now }
    ensures { result ≡ tables_at s.now }
{
    Tables {
        pivot: word32(s, 12),
        basis: word32(s, 16),
    }
}

pub fn read_animation(s: &[u8]) -> Result<Animation, Refusal>
    ensures { IsRead (WholeAnimation s.now) (run animation s.now 0) result }
{
    if s.len() < 20 {
        return Err(Refusal::TooShort);
    }
    let frames = word16(s, 4);
    let objects = word16(s, 6) as usize;
    if s.len() < 20 + 2 * objects {
        return Err(Refusal::TooShort);
    }
    if !starts_with(s, b"J\0AC") {
        return Err(Refusal::AnimationStamp);
    }
    if frames == 0 {
        return Err(Refusal::NoFrames);
    }
    if objects > MOST_OBJECTS {
        return Err(Refusal::ManyObjects);
    }
    let tables = read_tables(s);
    let all = follow_objects(s, tables, objects, 20 + 2 * objects)?;
    Ok(Animation {
        frames,
        objects,
        tables,
        reach: all.reach,
        samples: all.samples,
    })
}
