// Signed 16-bit samples: what a number means as f32, and which number an f32 is.
#![tactic(auto)]

ghost use Rattle.std.specs.Prelude.{◌≡◌};
ghost use Rattle.recording_shorts.specs.Shorts.{short_sample, quotient_bits, short_of};
ghost use Rattle.recording_shorts.specs.Steps.{SizeOf, Guessed};

const SIGN: u32 = 0x8000_0000;

// The weight of the exponent's field of an f32's pattern, which is also that of the leading digit.
const LEADING: u32 = 0x80_0000;

// Gives the sample that 16 bits mean: the signed number divided by 32,768. There is no branch on the sign: in noise a processor foretells it badly.
pub fn value(n: u16) -> f32
    ensures { result ≡ short_sample n }
{
    n.cast_signed() as f32 / 32768.0
}

// Gives the f32 pattern of that sample.
fn quotient_bits(n: u16) -> u32
    ensures { result ≡ quotient_bits n }
{
    floats::bits::pattern32(value(n))
}

// Finds the size of a number from the pattern of its quotient, without the sign. The exponent's field is 111 more than the number's binary digits, of which
// there are 1 to 16; the number itself is the significand, cut to that many digits.
fn size_of(pattern: u32) -> u32
    ensures { SizeOf pattern result }
{
    let field = pattern / LEADING;
    if field < 112 {
        return 0;
    }
    if 127 < field {
        return 0;
    }
    (pattern % LEADING + LEADING) >> (135 - field)
}

// Finds the one number whose quotient can have this pattern.
fn guess(bits: u32) -> u16
    ensures { Guessed bits result }
{
    let size = size_of(bits % SIGN);
    if 32768 < size {
        return 0;
    }
    if bits < SIGN {
        return size as u16;
    }
    if size == 0 {
        return 0;
    }
    (65536 - size) as u16
}

// Gives the 16 bits whose quotient has this pattern, if there are any: the pattern of the one number that can have it is formed again and compared.
pub fn number(bits: u32) -> Option<u16>
    ensures { result ≡ short_of bits }
{
    let n = guess(bits);
    if quotient_bits(n) == bits {
        return Some(n);
    }
    None
}
