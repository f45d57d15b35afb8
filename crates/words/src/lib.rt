// Reads and writes one word: a number of 32 bits, or a float's pattern. A NaN has no pattern in the logic; a pattern is recognised as a NaN's by its size.
#![tactic(auto)]

ghost use Rattle.std.specs.Prelude.{◌≡◌, ◌<◌, ◌^◌, length};
ghost use Rattle.std.specs.Float.{binary32, binary64};
ghost use Rattle.answers.specs.Told.{change_told, count_told, flag_told};
ghost use Rattle.words.specs.Words;
ghost use Rattle.words.specs.Words.{all_below, pattern_of, flag_of, one_value};
ghost use Rattle.words.specs.Answers.{number, given};

use answers::{Change, Count, Flag};
use floats::bits;

// How many values a report of one number has.
pub const ONE_VALUE: usize = 1;

const SIGN: u64 = 0x8000_0000_0000_0000;

const INFINITE: u64 = 0x7ff0_0000_0000_0000;

const SIGN_32: u32 = 0x8000_0000;

const INFINITE_32: u32 = 0x7f80_0000;

pub fn half(w: u64, other: u32) -> u32
    ensures { result ≡ Words.half w other }
{
    u32::try_from(w).unwrap_or(other)
}

pub fn all_below(limit: u64, first: u64, second: u64, third: u64) -> bool
    ensures { result ≡ all_below limit first second third }
{
    first < limit && second < limit && third < limit
}

// It and `pattern32` stand apart as the functions of `floats::bits` that they call: the constants differ, and std has no trait of both types.
pub fn pattern(old: u64, x: f64) -> u64
    ensures { result ≡ pattern_of binary64 old x }
{
    if x.is_nan() && old % SIGN > INFINITE {
        return old;
    }
    bits::pattern64(x)
}

pub fn pattern32(old: u32, x: f32) -> u32
    ensures { result ≡ pattern_of binary32 old x }
{
    if x.is_nan() && old % SIGN_32 > INFINITE_32 {
        return old;
    }
    bits::pattern32(x)
}

pub fn flag(b: bool) -> u64
    ensures { result ≡ flag_of b }
{
    u64::from(b)
}

pub fn change_number(change: Change) -> u32
    ensures { result ≡ number (change_told change) }
{
    match change {
        Change::Refused(n) => n as u32,
        Change::Done => 16,
    }
}

pub fn flag_number(flag: Flag) -> u32
    ensures { result ≡ number (flag_told flag) }
{
    match flag {
        Flag::Refused(n) => n as u32,
        Flag::Is(yes) => if yes { 17 } else { 16 },
    }
}

pub fn tell_count(values: &mut [u64], count: Count) -> u32
    requires { length values.old ≡ one_value }
    ensures number { result ≡ number (count_told count) }
    ensures values { values.new ≡ given values.old (count_told count) }
{
    match count {
        Count::Refused(n) => n as u32,
        Count::Is(n) => {
            values[0] = n;
            16
        }
    }
}

// Copies a whole state, word by word. (`copy_from_slice` would keep the words on the stack first: a call of the tracker took up to two fifths more instructions with it.)
pub fn put(from: &[u64], to: &mut [u64])
    requires { length from.now ≡ length to.old }
    ensures { to.new ≡ from.now }
{
    for i in 0..from.len() {
        to[i] = from[i];
    }
}
