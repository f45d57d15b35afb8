// Takes every 16-bit number to its f32 and back, and tries f32 patterns that are no number's: those beside the numbers' own, beside the powers of two, and the strange
// ones. The file `stdout` holds how many of them are numbers, and the hash of all 65,536 patterns, as tests/convert/numbers.py tells them from whole numbers alone.
#![tactic(auto)]

use pipes::told;
use recording_convert::Direction;
use recording_store::Unstored;
use std::io::Stdout;
use vectors::Tally;

// -0.0, 1.0 and what stands beside it and beside -1.0, the smallest and the largest numbers of either sign, both infinities, and NaNs.
const STRANGE: [u32; 16] = [
    0x8000_0000,
    0x3f80_0000,
    0x3f7f_ffff,
    0x3f80_0001,
    0xbf80_0001,
    0xbf7f_ffff,
    0x0000_0001,
    0x8000_0001,
    0x7f7f_ffff,
    0xff7f_ffff,
    0x7f80_0000,
    0xff80_0000,
    0x7fc0_0000,
    0xffc0_0000,
    0x7f80_0001,
    0xffff_ffff,
];

// ---- one number, one pattern

// What a byte of an output is before a call, so that one that was written shows.
const BEFORE: u8 = 0x5a;

// Whether four bytes become this number.
fn comes_back(bytes: &[u8], n: u16) -> bool {
    let mut out = [BEFORE; 2];
    match recording_store::store(Direction::ToShorts, bytes, 1, &mut out) {
        Ok(_) => vectors::number(&out, 0, 2) == n as u64,
        Err(_) => false,
    }
}

// Whether four bytes are refused, and nothing is written.
fn is_refused(bytes: &[u8]) -> bool {
    let mut out = [BEFORE; 2];
    match recording_store::store(Direction::ToShorts, bytes, 1, &mut out) {
        Err(Unstored::StrangeAt(before)) => before == 0 && vectors::number(&out, 0, 2) == 0x5a5a,
        Err(Unstored::NoRoom) | Ok(_) => false,
    }
}

// The f32 pattern of a number.
fn pattern_of(n: u16) -> u32 {
    floats::bits::pattern32(recording_shorts::value(n))
}

// Whether a number becomes its pattern, and that the number again.
fn goes_both_ways(n: u16) -> bool {
    let mut out = [BEFORE; 4];
    match recording_store::store(Direction::ToFloats, &n.to_le_bytes(), 1, &mut out) {
        Ok(_) => vectors::number32(&out, 0) == pattern_of(n) && comes_back(&out, n),
        Err(_) => false,
    }
}

// A pattern is a number's, and is stored as that number, or it is refused.
fn try_pattern(bits: u32, t: Tally) -> Tally {
    let bytes = bits.to_le_bytes();
    match recording_shorts::number(bits) {
        Some(n) => t.saw(true, pattern_of(n) == bits && comes_back(&bytes, n)),
        None => t.saw(false, is_refused(&bytes)),
    }
}

// ---- all of them

fn try_numbers(out: Stdout) -> Tally {
    (0..=u16::MAX).fold(Tally::new(out), |tally, n| {
        tally.saw(false, goes_both_ways(n))
    })
}

// The patterns before and behind one; the first stands behind the last.
fn try_beside(bits: u32, t: Tally) -> Tally {
    try_pattern(bits.wrapping_add(1), try_pattern(bits.wrapping_sub(1), t))
}

fn try_neighbours(out: Stdout) -> Tally {
    (0..=u16::MAX).fold(Tally::new(out), |tally, n| try_beside(pattern_of(n), tally))
}

// The power of two, or the infinity, with this sign and exponent's field, and the patterns before and behind it.
fn try_power(field: u32, t: Tally) -> Tally {
    let bits = field.wrapping_mul(0x80_0000);
    try_beside(bits, try_pattern(bits, t))
}

fn try_powers(out: Stdout) -> Tally {
    (0..512).fold(Tally::new(out), |tally, field| try_power(field, tally))
}

fn try_strange(out: Stdout) -> Tally {
    STRANGE
        .iter()
        .fold(Tally::new(out), |tally, bits| try_pattern(*bits, tally))
}

// ---- the patterns themselves

fn report_hash(out: Stdout) {
    let mut all = [0.0f32; 65536];
    for (n, x) in all.iter_mut().enumerate() {
        *x = recording_shorts::value((n % 65536) as u16);
    }
    told::put(out, b"the patterns of all numbers: hash ");
    told::put_number(out, vectors::patterns::hash(&all));
    told::put(out, b"\n");
}

fn main(rt: HostRuntime) {
    let out = rt.stdout();
    try_numbers(out).report(b"numbers both ways");
    try_neighbours(out).report_main(b"patterns beside them", b"numbers");
    try_powers(out).report_main(b"powers of two and patterns beside them", b"numbers");
    try_strange(out).report_main(b"strange patterns", b"numbers");
    report_hash(out);
}
