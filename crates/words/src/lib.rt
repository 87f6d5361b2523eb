// What each answer is written as: words into one array, floats into another, and its number.
#![tactic(auto)]

ghost use Rattle.std.specs.Prelude.{◌≡◌, List, [], ◌∷◌, Float};
ghost use Rattle.std.proofs.lemmas.List.Edits.{sets};
ghost use Rattle.util.specs.Reader.{told};
ghost use Rattle.util.specs.ReaderCode.{verdict};
ghost use Rattle.matrix.specs.Matrix.{floats_of};
ghost use Rattle.matrix.specs.declared.Mat3 as mat3;
ghost use Rattle.curve.specs.Curve.{listed};
ghost use Rattle.curve.specs.Curve as spec;
ghost use Rattle.curve.specs.CurveCode.{list_record_means, pair_means, record_means};
ghost use Rattle.info_block.specs.NameCode.{name_means};
ghost use Rattle.nitro.specs.ContainerCode.{stamp_means};
ghost use Rattle.nitro.specs.EntryCode.{check_means};
ghost use Rattle.gltf.specs.CurveCode.{resampling_means};
ghost use Rattle.pose.specs.PoseCode.{posing_means};
ghost use Rattle.calls.specs.AnswersCode.{list_answer_means, choice_answer_means, matrix_answer_means, found_means, material_answer_means};
ghost use Rattle.writing.specs.WritingCode.{writing_means};
ghost use Rattle.words.specs.Words.{Writes, kind_words, name_words, checked, record_words, curve_words, curve_floats, one_float, two_floats, nine_floats, listed_words, chosen_words, shift_floats, material_words, resampled_words, count_words, posed_words, found_words};

use calls::{Choice, Material};
use curve::{CurveRecord, ListRecord, Pair};
use gltf::Frames;
use info_block::name::Name;
use material_animation::Shift;
use matrix::{Mat3, Mat4, put_floats};
use nitro::container::Kind;
use nitro::entry::Checked;
use pattern::ItemList;
use util::refusal::Refusal;

// The words that a curve's record may take.
pub const CURVE_WORDS: usize = 8;

// The kind of a section.
pub fn put_kind(k: Result<Kind, Refusal>, out: &mut [u64; 1]) -> u32
    ensures { Writes kind_words (told (stamp_means k)) result out.old out.new }
{
    match k {
        Err(e) => e.into(),
        Ok(kind) => {
            match kind {
                Kind::Jnt => out[0] = 0,
                Kind::Srt => out[0] = 1,
                Kind::Pat => out[0] = 2,
            }
            0
        }
    }
}

// The record of an entry.
pub fn put_record(c: Result<Checked, Refusal>, out: &mut [u64; 5]) -> u32
    ensures { Writes record_words (checked (check_means c)) result out.old out.new }
{
    match c {
        Err(e) => e.into(),
        Ok(e) => {
            out[0] = e.name.lo;
            out[1] = e.name.hi;
            out[2] = e.reach as u64;
            out[3] = e.frames as u64;
            out[4] = e.count as u64;
            0
        }
    }
}

// What was found.
pub fn put_found(f: Result<Option<usize>, Refusal>, out: &mut [u64; 2]) -> u32
    ensures { Writes found_words (found_means f) result out.old out.new }
{
    match f {
        Err(e) => e.into(),
        Ok(None) => {
            out[0] = 0;
            0
        }
        Ok(Some(i)) => {
            out[0] = 1;
            out[1] = i as u64;
            0
        }
    }
}

// How many bytes were written.
pub fn put_count(w: Result<usize, Refusal>, out: &mut [u64; 1]) -> u32
    ensures { Writes count_words (writing_means w) result out.old out.new }
{
    match w {
        Err(e) => e.into(),
        Ok(n) => {
            out[0] = n as u64;
            0
        }
    }
}

// What a curve has for a constant, as N floats, said by what it stands for.
pub trait MeantFloats<const N: usize> {
    // what it stands for, and its floats
    ghost Meant: { Type 0 };

    ghost means: { Self → Meant };

    ghost floats: { Meant → List Float };

    fn put(self, out: &mut [f64; N])
        ensures { out.new ≡ sets out.old 0 (floats (means self)) };
}

// .. and said by the value itself, as with curve's `Value`.
pub trait Floats<const N: usize> {
    ghost floats: { Self → List Float };

    fn put(self, out: &mut [f64; N])
        ensures { out.new ≡ sets out.old 0 (floats self) };
}

impl MeantFloats<1> for f64 {
    ghost Meant = { Float };

    ghost means = { λ v. v };

    ghost floats = { one_float };

    fn put(self, out: &mut [f64; 1]) {
        out[0] = self;
    }
}

// The two numbers of a scale's value.
impl MeantFloats<2> for Pair {
    ghost Meant = { spec.Pair };

    ghost means = { pair_means };

    ghost floats = { two_floats };

    fn put(self, out: &mut [f64; 2]) {
        out[0] = self.first;
        out[1] = self.second;
    }
}

// Column by column.
impl MeantFloats<9> for Mat3 {
    ghost Meant = { mat3.Mat3 };

    ghost means = { λ m. m };

    ghost floats = { nine_floats };

    fn put(self, out: &mut [f64; 9]) {
        out[0] = self.c0.x;
        out[1] = self.c0.y;
        out[2] = self.c0.z;
        out[3] = self.c1.x;
        out[4] = self.c1.y;
        out[5] = self.c1.z;
        out[6] = self.c2.x;
        out[7] = self.c2.y;
        out[8] = self.c2.z;
    }
}

impl Floats<1> for f64 {
    ghost floats = { one_float };

    fn put(self, out: &mut [f64; 1]) {
        <f64 as MeantFloats<1>>::put(self, out);
    }
}

impl Floats<2> for Pair {
    ghost floats = { λ v. two_floats (pair_means v) };

    fn put(self, out: &mut [f64; 2]) {
        <Pair as MeantFloats<2>>::put(self, out);
    }
}

impl Floats<9> for Mat3 {
    ghost floats = { nine_floats };

    fn put(self, out: &mut [f64; 9]) {
        <Mat3 as MeantFloats<9>>::put(self, out);
    }
}

// Where a curve's list stands.
fn put_samples(r: ListRecord, out: &mut [u64; CURVE_WORDS])
    ensures { out.new ≡ sets out.old 0 (curve_words {A = Float} (listed (list_record_means r) r.list.length)) }
{
    let l = r.list;
    out[0] = 2;
    out[1] = l.start as u64;
    out[2] = l.end as u64;
    out[3] = l.place as u64;
    out[4] = l.length as u64;
    out[5] = l.size as u64;
    out[6] = l.rate as u64;
    out[7] = r.rest as u64;
}

// A curve's record: its words, and the floats of its constant.
fn put_whole<T: MeantFloats<N>, const N: usize>(
    r: CurveRecord<T>,
    out: &mut [u64; CURVE_WORDS],
    value: &mut [f64; N],
)
    ensures { (out.new ≡ sets out.old 0 (curve_words (record_means T.means r))) × (value.new ≡ sets value.old 0 (curve_floats T.floats (record_means T.means r))) }
{
    match r {
        CurveRecord::None => {
            out[0] = 0;
        }
        CurveRecord::Constant(v) => {
            out[0] = 1;
            v.put(value);
        }
        CurveRecord::List(l) => put_samples(l, out),
    }
}

// The record of a curve.
pub fn put_curve<T: MeantFloats<N>, const N: usize>(
    c: Result<CurveRecord<T>, Refusal>,
    out: &mut [u64; CURVE_WORDS],
    value: &mut [f64; N],
) -> u32
    ensures { Writes curve_words (verdict (record_means T.means) c) result out.old out.new × Writes (curve_floats T.floats) (verdict (record_means T.means) c) result value.old value.new }
{
    match c {
        Err(e) => e.into(),
        Ok(r) => {
            put_whole(r, out, value);
            0
        }
    }
}

// One value of a scale.
pub fn put_value(a: Result<Pair, Refusal>, out: &mut [f64; 2]) -> u32
    ensures { Writes two_floats (verdict pair_means a) result out.old out.new }
{
    match a {
        Err(e) => e.into(),
        Ok(v) => {
            <Pair as MeantFloats<2>>::put(v, out);
            0
        }
    }
}

// Sixteen floats, column by column.
pub fn put_sixteen(a: Result<Mat4, Refusal>, out: &mut [f64; 16]) -> u32
    ensures { Writes floats_of (matrix_answer_means a) result out.old out.new }
{
    match a {
        Err(e) => e.into(),
        Ok(m) => {
            put_floats(out, 0, m);
            0
        }
    }
}

// A name.
pub fn put_name(a: Result<Name, Refusal>, out: &mut [u64; 2]) -> u32
    ensures { Writes name_words (verdict name_means a) result out.old out.new }
{
    match a {
        Err(e) => e.into(),
        Ok(name) => {
            out[0] = name.lo;
            out[1] = name.hi;
            0
        }
    }
}

// The place and the length of a list.
pub fn put_list(a: Result<ItemList, Refusal>, out: &mut [u64; 2]) -> u32
    ensures { Writes listed_words (list_answer_means a) result out.old out.new }
{
    match a {
        Err(e) => e.into(),
        Ok(l) => {
            out[0] = l.place as u64;
            out[1] = l.count as u64;
            0
        }
    }
}

// The texture and the palette that are chosen.
pub fn put_choice(a: Result<Choice, Refusal>, out: &mut [u64; 2]) -> u32
    ensures { Writes chosen_words (choice_answer_means a) result out.old out.new }
{
    match a {
        Err(e) => e.into(),
        Ok(c) => {
            out[0] = c.texture.0 as u64;
            out[1] = c.palette.0 as u64;
            0
        }
    }
}

// How far a texture is shifted.
fn put_shift(m: Shift, out: &mut [f64; 2])
    ensures { out.new ≡ sets out.old 0 (m.u ∷ m.v ∷ []) }
{
    out[0] = m.u;
    out[1] = m.v;
}

// A material: its shift, and the texture and the palette that are chosen, if they are.
pub fn put_material(
    a: Result<Material, Refusal>,
    shift: &mut [f64; 2],
    choice: &mut [u64; 3],
) -> u32
    ensures { Writes shift_floats (material_answer_means a) result shift.old shift.new × Writes material_words (material_answer_means a) result choice.old choice.new }
{
    match a {
        Err(e) => e.into(),
        Ok(m) => {
            put_shift(m.shift, shift);
            match m.choice {
                None => choice[0] = 0,
                Some(c) => {
                    choice[0] = 1;
                    choice[1] = c.texture.0 as u64;
                    choice[2] = c.palette.0 as u64;
                }
            }
            0
        }
    }
}

// What was resampled, whatever the slice of floats holds.
pub fn put_resampling(a: Result<Option<Frames>, Refusal>, out: &mut [u64; 4]) -> u32
    ensures { (slice : List Float) → Writes resampled_words (resampling_means a slice) result out.old out.new }
{
    match a {
        Err(e) => e.into(),
        Ok(None) => {
            out[0] = 0;
            0
        }
        Ok(Some(f)) => {
            out[0] = 1;
            out[1] = f.start_frame as u64;
            out[2] = f.end_frame as u64;
            out[3] = f.frames as u64;
            0
        }
    }
}

// How many objects a pose or a clip has.
pub fn put_objects(p: Result<usize, Refusal>, out: &mut [u64; 1]) -> u32
    ensures { (slice : List Float) → Writes posed_words (posing_means p slice) result out.old out.new }
{
    match p {
        Err(e) => e.into(),
        Ok(count) => {
            out[0] = count as u64;
            0
        }
    }
}

#[cfg(test)]
mod tests {
    use super::Floats;
    use curve::Pair;
    use matrix::{Col3, Mat3};

    #[test]
    fn floats_are_put(rt: HostRuntime) {
        let mut one = [0.0];
        Floats::put(-1.5, &mut one);
        assert_eq!(rt; one, [-1.5]);
        let mut two = [0.0, 0.0];
        let pair = Pair {
            first: 1.5,
            second: -0.5,
        };
        Floats::put(pair, &mut two);
        assert_eq!(rt; two, [1.5, -0.5]);
        let mut nine = [0.0; 9];
        let c0 = Col3 {
            x: 1.0,
            y: 2.0,
            z: 3.0,
        };
        let c1 = Col3 {
            x: 4.0,
            y: 5.0,
            z: 6.0,
        };
        let c2 = Col3 {
            x: 7.0,
            y: 8.0,
            z: 9.0,
        };
        Floats::put(Mat3 { c0, c1, c2 }, &mut nine);
        assert_eq!(rt; nine, [1.0, 2.0, 3.0, 4.0, 5.0, 6.0, 7.0, 8.0, 9.0]);
    }
}
