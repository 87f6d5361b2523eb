// Curves as they stand in a section, and a curve's value between two of its values.
#![tactic(auto)]

ghost use Rattle.std.specs.Prelude.{List, ◌≡◌, ℕ, ◌+◌, ◌*◌, ◌^◌, ◌<◌, ◌≤◌, Float, length, drop};
ghost use Rattle.util.specs.Fixed.{Fix, fix1_19_12};
ghost use Rattle.util.specs.ReaderCode.{verdict};
ghost use Rattle.util.specs.Within.{Under};
ghost use Rattle.curve.specs.Curve.{samples, sample_count, counted_from, index, mix, mix_col, mix_mat, sample_at, number_bytes, number_of, pair_of, pair_at, recorded};
ghost use Rattle.curve.specs.CurveCode.{spot_at, on_value, SpotIn, format_means, list_means, list_record_means, Framed, Gives, curve_in, scalar_curve, pair_curve, Inside, InsideOf, pair_means, pair_as, record_means};
ghost use Rattle.curve.specs.Curve as spec;

use matrix::{Col3, Mat3};
use util::fixed::{Fix1_3_12, Fix1_10_5, Fix1_19_12, Format};
use util::refusal::Refusal;
use util::view::{word16, word32};

// How the numbers of a value are stored.
#[derive(Clone, Copy)]
pub enum Number {
    Fix1_19_12,
    Fix1_3_12,
    Fix1_10_5,
}

// A list of values: its frames, where it stands, how many values it has, the bytes of each, and the stored rate.
#[derive(Clone, Copy)]
pub struct SampleList {
    pub place: usize,
    pub length: u16,
    pub start: u16,
    pub end: u16,
    pub size: u8,
    pub rate: u8,
}

// The record of a list: there its place counts from the section's start. The rest is the frames that the rate leaves over.
#[derive(Clone, Copy)]
pub struct ListRecord {
    pub list: SampleList,
    pub rest: u16,
}

// A constant is where its value stands.
#[derive(Clone, Copy)]
pub enum ScalarCurve {
    None,
    Constant(usize),
    Samples(SampleList, Number),
}

// One value of a scale. The first number is the one that is sampled.
#[derive(Clone, Copy)]
pub struct Pair {
    pub first: f64,
    pub second: f64,
}

// The record of a curve whose constant is a T.
#[derive(Clone, Copy)]
pub enum CurveRecord<T> {
    None,
    Constant(T),
    List(ListRecord),
}

// What some bytes of a section are read as, said by what it stands for.
pub trait MeantValue {
    // what it stands for
    ghost Meant: { Type 0 };

    ghost means: { Self → Meant };

    // how many numbers it has
    ghost numbers: { ℕ };

    // .. and what it is, of its bytes
    ghost reading: { Fix → List ℕ → Meant };

    // The value at a place.
    fn read(s: &[u8], place: usize, number: Number) -> Self
        requires { place + number_bytes (format_means number) * numbers ≤ length s.now }
        ensures { means result ≡ reading (format_means number) (drop place s.now) };
}

// .. and said by the value itself. These crates go by the trait above; this one is for callers that take a value as it is.
pub trait Value {
    // how many numbers it has
    ghost numbers: { ℕ };

    // .. and what it is, of its bytes
    ghost reading: { Fix → List ℕ → Self };

    // The value at a place.
    fn read(s: &[u8], place: usize, number: Number) -> Self
        requires { place + number_bytes (format_means number) * numbers ≤ length s.now }
        ensures { result ≡ reading (format_means number) (drop place s.now) };
}

// What can be mixed.
pub trait Mix {
    ghost mixed: { Self → Self → Float → Self };

    // The value at g between two values.
    fn lerp(lo: Self, hi: Self, g: f64) -> Self
        ensures { result ≡ mixed lo hi g };
}

// The whole number below x, from its bits.
fn floor(x: f64) -> u64
    requires { Under x 65536 }
    ensures { result ≡ spec.floor x }
{
    let b = f64::to_bits(x);
    let e = b >> 52;
    if e < 1023 {
        return 0;
    }
    let m = b & 0xf_ffff_ffff_ffff | 0x10_0000_0000_0000;
    m >> (1075 - e)
}

// The whole number above x, which is x if x is whole.
fn ceil(x: f64) -> u64
    requires { Under x 65536 }
    ensures { result ≡ spec.ceil x }
{
    let b = f64::to_bits(x);
    if b == 0 {
        return 0;
    }
    let e = b >> 52;
    if e < 1023 {
        return 1;
    }
    let m = b & 0xf_ffff_ffff_ffff | 0x10_0000_0000_0000;
    let s = 1075 - e;
    let lo = m >> s;
    if lo << s == m { lo } else { lo + 1 }
}

// The values next to a frame, and how far it is from the first of them.
#[derive(Clone, Copy)]
pub struct Spot {
    pub lo: u64,
    pub hi: u64,
    pub g: f64,
}

// Where a frame falls among n values.
fn locate(start: u16, end: u16, frame: u16, n: u64) -> Spot
    requires { (start < frame) × (frame + 1 < end) × (1 ≤ n) × (n ≤ 65536) }
    ensures { (result ≡ spot_at (index start end frame n)) × (result.lo ≤ result.hi) × (result.hi < n) }
{
    // neither wraps: a caller has tested before that the frame is past the start and short of end - 1
    let a = frame - start;
    let b = end - 1 - start;
    let i = (a as f64) / (b as f64) * ((n - 1) as f64);
    let lo = floor(i);
    let hi = ceil(i);
    let g = i - lo as f64;
    Spot { lo, hi, g }
}

// Value k itself.
fn on_value(k: u64) -> Spot
    ensures { result ≡ on_value k }
{
    Spot {
        lo: k,
        hi: k,
        g: 0.0,
    }
}

// The values next to a frame: up to start the first, from end - 1 the last, else as `locate` finds them.
pub fn spot_of(l: SampleList, frame: u16) -> Spot
    requires { (l.start < l.end) × (1 ≤ l.length) }
    ensures { SpotIn l frame result }
{
    if frame <= l.start {
        return on_value(0);
    }
    let n = l.length as u64;
    if l.end - 1 <= frame {
        return on_value(n - 1);
    }
    locate(l.start, l.end, frame, n)
}

impl Mix for f64 {
    ghost mixed = { mix };

    fn lerp(lo: f64, hi: f64, g: f64) -> f64 {
        lo * (1.0 - g) + hi * g
    }
}

impl Mix for Col3 {
    ghost mixed = { mix_col };

    fn lerp(lo: Col3, hi: Col3, g: f64) -> Col3 {
        Col3 {
            x: f64::lerp(lo.x, hi.x, g),
            y: f64::lerp(lo.y, hi.y, g),
            z: f64::lerp(lo.z, hi.z, g),
        }
    }
}

// Entry by entry.
impl Mix for Mat3 {
    ghost mixed = { mix_mat };

    fn lerp(lo: Mat3, hi: Mat3, g: f64) -> Mat3 {
        Mat3 {
            c0: Col3::lerp(lo.c0, hi.c0, g),
            c1: Col3::lerp(lo.c1, hi.c1, g),
            c2: Col3::lerp(lo.c2, hi.c2, g),
        }
    }
}

// A list that is not empty, at a frame: `value` gives its values.
pub fn sample_list<V: Mix, F: Fn(usize) -> V>(l: SampleList, frame: u16, value: F) -> V
    requires framed { (l.start < l.end) × (1 ≤ l.length) }
    requires values { (k : ℕ) → k < l.length → F.pre value k }
    ensures { (default : V) (values : List V) → Gives V.mixed (F.post value) l.length default values → result ≡ sample_at V.mixed default (samples (list_means l) values) frame }
{
    let p = spot_of(l, frame);
    let lo = value(p.lo as usize);
    // mixed with itself it would be the same: g is +0 here
    if p.lo == p.hi {
        return lo;
    }
    let hi = value(p.hi as usize);
    V::lerp(lo, hi, p.g)
}

// The bytes of a number.
fn number_bytes(number: Number) -> usize
    ensures { (result ≡ number_bytes (format_means number)) × (result ≤ 4) }
{
    match number {
        Number::Fix1_19_12 => 4,
        Number::Fix1_3_12 => 2,
        Number::Fix1_10_5 => 2,
    }
}

impl MeantValue for f64 {
    ghost Meant = { Float };

    ghost means = { λ v. v };

    ghost numbers = { 1 };

    ghost reading = { number_of };

    fn read(s: &[u8], place: usize, number: Number) -> f64 {
        match number {
            Number::Fix1_19_12 => Fix1_19_12::read(word32(s, place)),
            Number::Fix1_3_12 => Fix1_3_12::read(word16(s, place) as u32),
            Number::Fix1_10_5 => Fix1_10_5::read(word16(s, place) as u32),
        }
    }
}

impl MeantValue for Pair {
    ghost Meant = { spec.Pair };

    ghost means = { pair_means };

    ghost numbers = { 2 };

    ghost reading = { pair_of };

    fn read(s: &[u8], place: usize, number: Number) -> Pair {
        let next = place + number_bytes(number);
        let first = <f64 as MeantValue>::read(s, place, number);
        let second = <f64 as MeantValue>::read(s, next, number);
        Pair { first, second }
    }
}

impl Value for f64 {
    ghost numbers = { 1 };

    ghost reading = { number_of };

    fn read(s: &[u8], place: usize, number: Number) -> f64 {
        <f64 as MeantValue>::read(s, place, number)
    }
}

impl Value for Pair {
    ghost numbers = { 2 };

    ghost reading = { λ f bs. pair_as (pair_of f bs) };

    fn read(s: &[u8], place: usize, number: Number) -> Pair {
        <Pair as MeantValue>::read(s, place, number)
    }
}

// A constant.
fn constant<V: MeantValue>(s: &[u8], place: usize) -> V
    requires { place + 4 * V.numbers ≤ length s.now }
    ensures { V.means result ≡ V.reading fix1_19_12 (drop place s.now) }
{
    V::read(s, place, Number::Fix1_19_12)
}

// Value k of a list.
fn list_value<V: MeantValue>(s: &[u8], l: SampleList, number: Number, k: usize) -> V
    requires { InsideOf V.numbers s.now (ScalarCurve.Samples l number) × (k < l.length) }
    ensures { V.means result ≡ V.reading (format_means number) (drop (l.place + l.size * k) s.now) }
{
    V::read(s, l.place + l.size as usize * k, number)
}

// A curve at a frame: `default` where it has no value.
pub fn sample_scalar(s: &[u8], curve: ScalarCurve, default: f64, frame: u16) -> f64
    requires { Inside s.now curve }
    ensures { result ≡ sample_at mix default (scalar_curve s.now curve) frame }
{
    match curve {
        ScalarCurve::None => default,
        ScalarCurve::Constant(place) => constant(s, place),
        ScalarCurve::Samples(l, number) => {
            if l.length == 0 {
                return default;
            }
            sample_list(
                l,
                frame,
                |k: usize| -> f64
                    requires { InsideOf 1 s.now (ScalarCurve.Samples l number) × (k < l.length) }
                { list_value(s, l, number, k) },
            )
        }
    }
}

// How many values its list has; a constant is no list.
pub fn sample_count(curve: ScalarCurve) -> u16
    ensures { (s : List ℕ) → result ≡ sample_count (scalar_curve s curve) }
{
    match curve {
        ScalarCurve::None => 0,
        ScalarCurve::Constant(_) => 0,
        ScalarCurve::Samples(l, _) => l.length,
    }
}

// 2 to a rate of two bits.
fn power(rate: u8) -> u16
    requires { rate ≤ 3 }
    ensures { result ≡ 2 ^ rate }
{
    1 << rate
}

// A list's record, in an entry that stands at `entry`.
pub fn record_list(l: SampleList, entry: usize) -> ListRecord
    requires { Framed l × (entry + l.place < 18446744073709551616) }
    ensures { (list_record_means result ≡ counted_from entry (list_means l)) × (result.list.length ≡ l.length) }
{
    let mut list = l;
    list.place = entry + l.place;
    let rest = (l.end - l.start) % power(l.rate);
    ListRecord { list, rest }
}

// The pair at an index of those that a curve stores.
pub fn pair_at(s: &[u8], c: ScalarCurve, index: usize) -> Result<Pair, Refusal>
    requires { InsideOf 2 s.now c }
    ensures { verdict pair_means result ≡ pair_at (pair_curve s.now c) index }
{
    match c {
        ScalarCurve::Constant(place) if index == 0 => Ok(constant(s, place)),
        ScalarCurve::Samples(l, number) if index < l.length as usize => {
            Ok(list_value(s, l, number, index))
        }
        _ => Err(Refusal::NoSuchIndex),
    }
}

// A curve's record, in an entry that stands at `entry`: the slice is the section from there on.
pub fn record<V: MeantValue>(s: &[u8], c: ScalarCurve, entry: usize) -> CurveRecord<V>
    requires { InsideOf V.numbers s.now c × (entry + length s.now < 18446744073709551616) }
    ensures { record_means V.means result ≡ recorded entry (curve_in V.reading s.now c) }
{
    match c {
        ScalarCurve::None => CurveRecord::None,
        ScalarCurve::Constant(place) => CurveRecord::Constant(constant(s, place)),
        ScalarCurve::Samples(l, _) => CurveRecord::List(record_list(l, entry)),
    }
}

#[cfg(test)]
mod tests {
    use super::{Number, Pair, Value};

    // 1.5 and -0.5 in 1.3.12; the same bytes are read in the other formats too
    #[test]
    fn values_are_read(rt: HostRuntime) {
        let s = [9u8, 0x00, 0x18, 0x00, 0xf8];
        for (number, first) in [
            (Number::Fix1_3_12, 1.5),
            (Number::Fix1_10_5, 192.0),
            (Number::Fix1_19_12, -32766.5),
        ] {
            assert_eq!(rt; <f64 as Value>::read(&s, 1, number), first);
        }
        for (number, first, second) in [
            (Number::Fix1_3_12, 1.5, -0.5),
            (Number::Fix1_10_5, 192.0, -64.0),
        ] {
            let pair = <Pair as Value>::read(&s, 1, number);
            assert_eq!(rt; pair.first, first);
            assert_eq!(rt; pair.second, second);
        }
    }
}
