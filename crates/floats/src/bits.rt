// Converts between a float and its bit pattern. The logic has one NaN and gives it no pattern, so every NaN's pattern reads as the constant NaN,
// and every NaN is written as the quiet one without a sign.
ghost use Rattle.std.specs.Prelude.{◌≡◌, false};
ghost use Rattle.std.specs.Float.{binary32, binary64};
ghost use Rattle.std.specs.Float.Ieee.{is_nan, of_bits, to_bits};
ghost use Rattle.floats.specs.Functions.{magnitude};

const SIGN: u64 = 0x8000_0000_0000_0000;

const INFINITE: u64 = 0x7ff0_0000_0000_0000;

const NO_NUMBER: u64 = 0x7ff8_0000_0000_0000;

const SIGN_32: u32 = 0x8000_0000;

const INFINITE_32: u32 = 0x7f80_0000;

const NO_NUMBER_32: u32 = 0x7fc0_0000;

// Each function stands once for each format: the constants differ, and std has no trait of both types.
pub fn float64(pattern: u64) -> f64
    ensures { result ≡ of_bits binary64 pattern }
{
    if pattern % SIGN > INFINITE {
        return f64::NAN;
    }
    f64::from_bits(pattern)
}

pub fn float32(pattern: u32) -> f32
    ensures { result ≡ of_bits binary32 pattern }
{
    if pattern % SIGN_32 > INFINITE_32 {
        return f32::NAN;
    }
    f32::from_bits(pattern)
}

pub fn pattern64(x: f64) -> u64
    ensures { result ≡ to_bits binary64 x }
{
    if x.is_nan() {
        return NO_NUMBER;
    }
    x.to_bits()
}

pub fn pattern32(x: f32) -> u32
    ensures { result ≡ to_bits binary32 x }
{
    if x.is_nan() {
        return NO_NUMBER_32;
    }
    x.to_bits()
}

// Gives the absolute value of a float that is not a NaN: the pattern with its sign clear. The processor would mispredict a test of the sign for every other sample.
pub fn unsigned(x: f64) -> f64
    requires { is_nan x ≡ false }
    ensures { result ≡ magnitude x }
{
    f64::from_bits(x.to_bits() % SIGN)
}
