// Float helpers: narrow an f64 to an f32, and take the square root of an f64, on bit patterns and with whole numbers.
#![tactic(auto)]

pub mod bits; // a float from its bit pattern and back

ghost use Rattle.std.specs.Prelude.{◌≡◌, true, ◌+◌, ◌-◌, ◌*◌, ◌^◌, ◌<◌, ◌≤◌};
ghost use Rattle.std.specs.Float.{binary64};
ghost use Rattle.std.specs.Float.Ieee.Nearest.{closest};
ghost use Rattle.floats.specs.Operations.{Narrows, Roots, NarrowsBits, RootsBits};
ghost use Rattle.std.specs.Float.Ieee.Scale.{finite};
ghost use Rattle.floats.specs.Functions;
ghost use Rattle.floats.specs.Functions.{root_bits};
ghost use Rattle.floats.specs.Steps.{NarrowedSize, Started, Close, Marked, Shifted, RootAt};
ghost use Rattle.root_table.specs.Guesses.{Table};

use root_table::{first_guesses, whole_root};

// An f64's pattern has the sign, eleven digits of the exponent's field, and 52 digits below the leading one. SIGN and LEADING are the weights of
// the sign and of the exponent's field, which is also that of the leading digit.
const SIGN: u64 = 0x8000_0000_0000_0000;

const LEADING: u64 = 0x10_0000_0000_0000;

const INFINITE: u64 = 0x7ff0_0000_0000_0000;

const NO_NUMBER: u64 = 0x7ff8_0000_0000_0000;

// The same for an f32's pattern.
const SIGN_32: u64 = 0x8000_0000;

const INFINITE_32: u64 = 0x7f80_0000;

const NO_NUMBER_32: u32 = 0x7fc0_0000;

fn pow2(k: u64) -> u64
    requires { k < 64 }
    ensures { result ≡ 2 ^ k }
{
    1 << k
}

// Rounds m / 2^k to the nearest whole number, a tie to the even one. What is left of m, plus half a unit less one, plus one if q is odd,
// reaches the unit exactly if the next whole number is taken. There is no branch, since a test of what is left would be mispredicted every other time.
fn to_even(m: u64, k: u64) -> u64
    requires { (0 < k) × (k < 64) }
    ensures { result ≡ closest m (2 ^ k) }
{
    let q = m >> k;
    let unit = pow2(k);
    let rest = m - q * unit;
    let half = unit / 2 - 1;
    let carry = (rest + half + q % 2) >> k;
    q + carry
}

// ---- narrowing

// The patterns of 2^-126 and of 2^128. A number between them has an f32's exponent.
const LOWEST: u64 = 0x3810_0000_0000_0000;

const TOO_LARGE: u64 = 0x47f0_0000_0000_0000;

fn is_usual(b: u64) -> bool
    ensures { result ≡ true → (0x3810_0000_0000_0000 ≤ b) × (b < 0x47f0_0000_0000_0000) }
{
    (LOWEST..TOO_LARGE).contains(&b)
}

// Narrows in the usual case: exponent and digits together lose 29 places, a tie goes to the even pattern, and the exponent's field counts from 2^-126 on.
fn narrow_usual(size: u64) -> u64
    requires { (0x3810_0000_0000_0000 ≤ size) × (size < 0x47f0_0000_0000_0000) }
    ensures { NarrowedSize size result }
{
    let odd = (size >> 29) % 2;
    ((size + 0xfff_ffff + odd) >> 29) - 0x1_c000_0000
}

// Narrows a pattern without its sign that is not a NaN's; the result is without its sign too. In units of an f32's smallest value, 2^-149, the number is
// m / 2^(926 - x): it is too large, too small, subnormal or normal. A carry out of the digits adds one to the exponent's field, as it should.
fn narrow_size(size: u64) -> u64
    requires { size ≤ 0x7ff0_0000_0000_0000 }
    ensures { NarrowedSize size result }
{
    let x = size / LEADING;
    let t = size % LEADING;
    if 1150 < x {
        return INFINITE_32;
    }
    if x < 873 {
        return 0;
    }
    if x < 897 {
        return to_even(t + LEADING, 926 - x);
    }
    narrow_usual(size)
}

// Narrows any pattern.
fn narrow_any(b: u64) -> u32
    ensures { NarrowsBits b result }
{
    let size = b % SIGN;
    if INFINITE < size {
        return NO_NUMBER_32;
    }
    let r = narrow_size(size);
    if b < SIGN {
        return r as u32;
    }
    (r + SIGN_32) as u32
}

// Narrows the pattern of an f64 to that of an f32. The usual case comes first: it takes a quarter of the time.
pub fn narrow_bits(b: u64) -> u32
    ensures { NarrowsBits b result }
{
    if is_usual(b) {
        return narrow_usual(b) as u32;
    }
    narrow_any(b)
}

// ---- the square root. It starts with a first guess from a table: whoever takes many roots makes the table once and lends it.

// A number s near the root of an n: s * s + have = n + want.
#[derive(Clone, Copy)]
struct Wide {
    s: u64,
    have: u64,
    want: u64,
}

// Goes from the whole root r of m to a number close to the root of m * 4^27, by one long division.
fn widen(m: u64, r: u64) -> Wide
    requires { Started m r }
    ensures { (result.s * result.s + result.have ≡ m * 2 ^ 54 + result.want) × Close result.s result.have result.want }
{
    let top = (m - r * r) * 0x400_0000;
    let q = top / r;
    let rest = top % r;
    Wide {
        s: r * 0x800_0000 + q,
        have: rest * 0x1000_0000,
        want: q * q,
    }
}

// Gives twice the whole root, and 1 more if the root is not whole.
fn mark(w: Wide) -> u64
    requires { Close w.s w.have w.want }
    ensures { Marked (w.s * w.s + w.have - w.want) result }
{
    let Wide { s, have, want } = w;
    if have < want {
        let d = s * 2 - 2;
        if have + d + 1 == want {
            return d;
        }
        return d + 1;
    }
    if have == want {
        return s * 2;
    }
    s * 2 + 1
}

// A number with 53 digits, and by how many places it was shifted up to get them.
#[derive(Clone, Copy)]
struct Up {
    m: u64,
    z: u64,
}

fn shift_up(t: u64) -> Up
    requires { (0 < t) × (t < 2 ^ 52) }
    ensures { Shifted t result.m result.z }
{
    let z = 52 - t.ilog2();
    Up {
        m: t << z,
        z: u64::from(z),
    }
}

// Gives the pattern of the root of m * 2^(e - 2096), for an m of 53 digits.
fn root_scaled(guesses: &[u16], m: u64, e: u64) -> u64
    requires { (2 ^ 52 ≤ m) × (m < 2 ^ 53) × (e < 4096) × Table guesses.now }
    ensures { RootAt m e result }
{
    let n = m + m * (e % 2);
    let w = mark(widen(n, whole_root(guesses, n)));
    e / 2 * LEADING + to_even(w, 2)
}

// Gives the root's pattern, for the pattern of a finite number above zero.
fn root_size(guesses: &[u16], b: u64) -> u64
    requires { (0 < b) × (b < 0x7ff0_0000_0000_0000) × Table guesses.now }
    ensures { result ≡ root_bits b }
{
    let x = b / LEADING;
    let t = b % LEADING;
    if 0 < x {
        return root_scaled(guesses, t + LEADING, x + 1021);
    }
    let Up { m, z } = shift_up(t);
    root_scaled(guesses, m, 1022 - z)
}

// Gives the pattern of an f64's square root. The table is lent.
pub fn root_bits_with(guesses: &[u16], b: u64) -> u64
    requires { Table guesses.now }
    ensures { RootsBits b result }
{
    if b % SIGN == 0 {
        return b;
    }
    if b < INFINITE {
        return root_size(guesses, b);
    }
    if b == INFINITE {
        return INFINITE;
    }
    NO_NUMBER
}

pub fn root_bits(b: u64) -> u64
    ensures { RootsBits b result }
{
    let guesses = first_guesses();
    root_bits_with(&guesses, b)
}

// ---- on floats. A NaN has no pattern in the logic, so it is never made from one.

// Rounds an f64 to an f32.
pub fn narrowed(x: f64) -> f32
    ensures { Narrows x result }
{
    if x.is_nan() {
        return f32::NAN;
    }
    let n = narrow_bits(x.to_bits());
    if n == NO_NUMBER_32 {
        return f32::NAN;
    }
    f32::from_bits(n)
}

// Takes the square root. The table is lent.
pub fn square_root_with(guesses: &[u16], x: f64) -> f64
    requires { Table guesses.now }
    ensures { Roots binary64 x result }
{
    if x.is_nan() {
        return f64::NAN;
    }
    let n = root_bits_with(guesses, x.to_bits());
    if n == NO_NUMBER {
        return f64::NAN;
    }
    f64::from_bits(n)
}

pub fn square_root(x: f64) -> f64
    ensures { Roots binary64 x result }
{
    let guesses = first_guesses();
    square_root_with(&guesses, x)
}

// Tells whether x is neither a NaN nor an infinity. There is one for each type: std has no trait of both, and one of our own would be no plainer than a call of a method.
pub fn is_finite(x: f64) -> bool
    ensures { result ≡ finite x }
{
    x.is_finite()
}

pub fn is_finite32(x: f32) -> bool
    ensures { result ≡ finite x }
{
    x.is_finite()
}

// Gives the absolute value.
pub fn magnitude(x: f64) -> f64
    ensures { result ≡ Functions.magnitude x }
{
    if x.is_nan() {
        return x;
    }
    bits::unsigned(x)
}
