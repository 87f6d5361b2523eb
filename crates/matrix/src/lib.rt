// Matrices as columns of floats, by value. They stand in for cgmath's.
#![tactic(auto)]

ghost use Rattle.std.specs.Prelude.{◌≡◌, ◌+◌, ◌≤◌, length};
ghost use Rattle.std.proofs.lemmas.List.Edits.{sets};
ghost use Rattle.matrix.specs.Finite.{FiniteCol, FiniteMat};
ghost use Rattle.matrix.specs.Matrix as spec;

use util::view::put64;

#[derive(Clone, Copy)]
pub struct Col3 {
    pub x: f64,
    pub y: f64,
    pub z: f64,
}

#[derive(Clone, Copy)]
pub struct Mat3 {
    pub c0: Col3,
    pub c1: Col3,
    pub c2: Col3,
}

#[derive(Clone, Copy)]
pub struct Col4 {
    pub x: f64,
    pub y: f64,
    pub z: f64,
    pub w: f64,
}

#[derive(Clone, Copy)]
pub struct Mat4 {
    pub c0: Col4,
    pub c1: Col4,
    pub c2: Col4,
    pub c3: Col4,
}

// A row times a column: four products, added from the left.
fn dot(a: f64, b: f64, c: f64, d: f64, v: Col4) -> f64
    ensures { result ≡ spec.dot a b c d v }
{
    a * v.x + b * v.y + c * v.z + d * v.w
}

fn column(m: Mat4, v: Col4) -> Col4
    ensures { result ≡ spec.column m v }
{
    Col4 {
        x: dot(m.c0.x, m.c1.x, m.c2.x, m.c3.x, v),
        y: dot(m.c0.y, m.c1.y, m.c2.y, m.c3.y, v),
        z: dot(m.c0.z, m.c1.z, m.c2.z, m.c3.z, v),
        w: dot(m.c0.w, m.c1.w, m.c2.w, m.c3.w, v),
    }
}

pub fn product(m: Mat4, n: Mat4) -> Mat4
    ensures { result ≡ spec.product m n }
{
    Mat4 {
        c0: column(m, n.c0),
        c1: column(m, n.c1),
        c2: column(m, n.c2),
        c3: column(m, n.c3),
    }
}

fn vec4(x: f64, y: f64, z: f64, w: f64) -> Col4
    ensures { result ≡ spec.col4 x y z w }
{
    Col4 { x, y, z, w }
}

pub fn identity() -> Mat3
    ensures { result ≡ spec.identity3 }
{
    Mat3 {
        c0: Col3 {
            x: 1.0,
            y: 0.0,
            z: 0.0,
        },
        c1: Col3 {
            x: 0.0,
            y: 1.0,
            z: 0.0,
        },
        c2: Col3 {
            x: 0.0,
            y: 0.0,
            z: 1.0,
        },
    }
}

pub fn from_translation(x: f64, y: f64, z: f64) -> Mat4
    ensures { result ≡ spec.translation4 x y z }
{
    Mat4 {
        c0: vec4(1.0, 0.0, 0.0, 0.0),
        c1: vec4(0.0, 1.0, 0.0, 0.0),
        c2: vec4(0.0, 0.0, 1.0, 0.0),
        c3: vec4(x, y, z, 1.0),
    }
}

fn from_rotation(m: Mat3) -> Mat4
    ensures { result ≡ spec.rotation4 m }
{
    Mat4 {
        c0: vec4(m.c0.x, m.c0.y, m.c0.z, 0.0),
        c1: vec4(m.c1.x, m.c1.y, m.c1.z, 0.0),
        c2: vec4(m.c2.x, m.c2.y, m.c2.z, 0.0),
        c3: vec4(0.0, 0.0, 0.0, 1.0),
    }
}

fn from_nonuniform_scale(x: f64, y: f64, z: f64) -> Mat4
    ensures { result ≡ spec.scale4 x y z }
{
    Mat4 {
        c0: vec4(x, 0.0, 0.0, 0.0),
        c1: vec4(0.0, y, 0.0, 0.0),
        c2: vec4(0.0, 0.0, z, 0.0),
        c3: vec4(0.0, 0.0, 0.0, 1.0),
    }
}

// (translation · rotation) · scale, a column each for x, y, z.
pub fn trs(t: Col3, r: Mat3, s: Col3) -> Mat4
    ensures { result ≡ spec.trs t r s }
{
    let translation = from_translation(t.x, t.y, t.z);
    let rotation = from_rotation(r);
    let scale = from_nonuniform_scale(s.x, s.y, s.z);
    product(product(translation, rotation), scale)
}

// A column's four floats, eight bytes each, from `at` on.
fn put_column(out: &mut [u8], at: usize, c: Col4)
    requires { (at + 32 ≤ length out.old) × FiniteCol c }
    ensures { out.new ≡ sets out.old at (spec.column_bytes c) }
{
    put64(out, at, f64::to_bits(c.x));
    put64(out, at + 8, f64::to_bits(c.y));
    put64(out, at + 16, f64::to_bits(c.z));
    put64(out, at + 24, f64::to_bits(c.w));
}

// A matrix's sixteen floats, column by column, into the first 128 bytes.
pub fn put_matrix(out: &mut [u8], m: Mat4)
    requires { (128 ≤ length out.old) × FiniteMat m }
    ensures { out.new ≡ sets out.old 0 (spec.bytes_of m) }
{
    put_column(out, 0, m.c0);
    put_column(out, 32, m.c1);
    put_column(out, 64, m.c2);
    put_column(out, 96, m.c3);
}

// A column's four floats, from `at` on.
fn put_four(out: &mut [f64], at: usize, c: Col4)
    requires { at + 4 ≤ length out.old }
    ensures { out.new ≡ sets out.old at (spec.column_floats c) }
{
    out[at] = c.x;
    out[at + 1] = c.y;
    out[at + 2] = c.z;
    out[at + 3] = c.w;
}

// A matrix's sixteen floats, column by column, from `at` on.
pub fn put_floats(out: &mut [f64], at: usize, m: Mat4)
    requires { at + 16 ≤ length out.old }
    ensures { out.new ≡ sets out.old at (spec.floats_of m) }
{
    put_four(out, at, m.c0);
    put_four(out, at + 4, m.c1);
    put_four(out, at + 8, m.c2);
    put_four(out, at + 12, m.c3);
}
