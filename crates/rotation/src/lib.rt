// Rotations as they are stored: pivot and basis matrices.
#![tactic(auto)]

ghost use Rattle.std.specs.Prelude.{◌≡◌, ◌+◌, ◌<◌};
ghost use Rattle.matrix.specs.Matrix.{col3};
ghost use Rattle.matrix.specs.Matrix as spec;
ghost use Rattle.rotation.specs.RotationCode.{digit, value_at};
ghost use Rattle.rotation.specs.Rotation.{turned, pivot_mat, high, joined, basis_mat};

use matrix::{Col3, Mat3};
use util::bits::bit;
use util::fixed::{Fix1_0_12, Format};

// What goes where, by select: an octal digit for each place, column by column. 0 is +0, and 1 to 5 are o, a, b, c and d.
const ROWS: [u32; 9] = [
    0o100_023_045,
    0o010_203_405,
    0o001_230_450,
    0o023_100_045,
    0o203_010_405,
    0o230_001_450,
    0o023_045_100,
    0o203_405_010,
    0o230_450_001,
];

// The value that goes to place k: the digits count from the left.
fn entry(row: u32, k: u32, values: &[f64; 6]) -> f64
    requires { (k < 9) × (digit row k < 6) }
    ensures { result ≡ value_at row k values.now }
{
    values[((row >> (24 - 3 * k)) % 8) as usize]
}

fn column(row: u32, k: u32, values: &[f64; 6]) -> Col3
    requires { (k < 7) × (digit row k < 6) × (digit row (k + 1) < 6) × (digit row (k + 2) < 6) }
    ensures { result ≡ col3 (value_at row k values.now) (value_at row (k + 1) values.now) (value_at row (k + 2) values.now) }
{
    Col3 {
        x: entry(row, k, values),
        y: entry(row, k + 1, values),
        z: entry(row, k + 2, values),
    }
}

// x, negated if bit i of neg is set.
fn turn(neg: u16, i: u32, x: f64) -> f64
    requires { i < 16 }
    ensures { result ≡ turned neg i x }
{
    if bit(neg as u32, i) { -x } else { x }
}

pub fn pivot_mat(select: u16, neg: u16, a: f64, b: f64) -> Mat3
    ensures { result ≡ pivot_mat select neg a b }
{
    if select >= 9 {
        let zero = Col3 {
            x: 0.0,
            y: 0.0,
            z: 0.0,
        };
        return Mat3 {
            c0: Col3 {
                x: -a,
                y: 0.0,
                z: 0.0,
            },
            c1: zero,
            c2: zero,
        };
    }
    let row = ROWS[select as usize];
    let values = [
        0.0,
        turn(neg, 0, 1.0),
        a,
        b,
        turn(neg, 1, b),
        turn(neg, 2, a),
    ];
    Mat3 {
        c0: column(row, 0, &values),
        c1: column(row, 3, &values),
        c2: column(row, 6, &values),
    }
}

// The high thirteen bits of a word, as 1.0.12.
fn high_bits(x: u16) -> f64
    ensures { result ≡ high x }
{
    Fix1_0_12::read((x >> 3) as u32)
}

// The low three bits of in4, in0, in1, in2 and in3, joined; of those fifteen the low thirteen.
fn low_bits(in0: u16, in1: u16, in2: u16, in3: u16, in4: u16) -> u16
    ensures { result ≡ joined in0 in1 in2 in3 in4 }
{
    (((((in4 & 7) << 3 | in0 & 7) << 3 | in1 & 7) << 3 | in2 & 7) << 3 | in3 & 7) & 0x1fff
}

fn cross(a: Col3, b: Col3) -> Col3
    ensures { result ≡ spec.cross a b }
{
    Col3 {
        x: a.y * b.z - a.z * b.y,
        y: a.z * b.x - a.x * b.z,
        z: a.x * b.y - a.y * b.x,
    }
}

pub fn basis_mat(in0: u16, in1: u16, in2: u16, in3: u16, in4: u16) -> Mat3
    ensures { result ≡ basis_mat in0 in1 in2 in3 in4 }
{
    let one = Col3 {
        x: high_bits(in0),
        y: high_bits(in1),
        z: high_bits(in2),
    };
    let two = Col3 {
        x: high_bits(in3),
        y: high_bits(in4),
        z: Fix1_0_12::read(low_bits(in0, in1, in2, in3, in4) as u32),
    };
    Mat3 {
        c0: one,
        c1: two,
        c2: cross(one, two),
    }
}
