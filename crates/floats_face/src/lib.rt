// The calls of floats, on bit patterns. None is ever refused, so each returns its value and not the number of an answer.
#![tactic(auto)]

ghost use Rattle.std.specs.Prelude.{◌≡◌, ◌%◌, ◌^◌};
ghost use Rattle.std.specs.Float.{binary32, binary64};
ghost use Rattle.std.specs.Float.Ieee.{of_bits};
ghost use Rattle.std.specs.Float.Ieee.Scale.{finite};
ghost use Rattle.words.specs.Words.{flag_of};
ghost use Rattle.root_table.specs.Guesses.{Table};
ghost use Rattle.floats.specs.Operations.{NarrowsBits, RootsBits};
ghost use Rattle.floats_face.specs.Calls.{magnitude_bits, roots_of};

use floats::root_bits_with;
use root_table::first_guesses;

#[unsafe(no_mangle)]
pub extern "C" fn tmv_narrow(bits: u64) -> u32
    ensures { NarrowsBits bits result }
{
    floats::narrow_bits(bits)
}

#[unsafe(no_mangle)]
pub extern "C" fn tmv_square_root(bits: u64) -> u64
    ensures { RootsBits bits result }
{
    floats::root_bits(bits)
}

// Replaces each number of a list by its root. The table is lent.
fn write_roots(guesses: &[u16], list: &mut [u64])
    requires { Table guesses.now }
    ensures { list.new ≡ roots_of list.old }
{
    for number in list.iter_mut() {
        *number = root_bits_with(guesses, *number);
    }
}

// Replaces each number of a list by its root. Makes the table only once: it takes most of the time of a single root.
#[unsafe(no_mangle)]
pub extern "C" fn tmv_square_roots(list: &mut [u64])
    ensures { list.new ≡ roots_of list.old }
{
    let guesses = first_guesses();
    write_roots(&guesses, list);
}

// Returns 1 if an f64 is neither a NaN nor an infinity, else 0.
#[unsafe(no_mangle)]
pub extern "C" fn tmv_is_finite(bits: u64) -> u32
    ensures { result ≡ flag_of (finite (of_bits binary64 bits)) }
{
    u32::from(floats::is_finite(floats::bits::float64(bits)))
}

// Does the same for an f32.
#[unsafe(no_mangle)]
pub extern "C" fn tmv_is_finite32(bits: u32) -> u32
    ensures { result ≡ flag_of (finite (of_bits binary32 bits)) }
{
    u32::from(floats::is_finite32(floats::bits::float32(bits)))
}

// Returns the absolute value. A NaN has no pattern on the way through floats, so it keeps the one that it came with, without the sign.
#[unsafe(no_mangle)]
pub extern "C" fn tmv_magnitude(bits: u64) -> u64
    ensures { result ≡ magnitude_bits bits }
{
    words::pattern(
        bits % 0x8000_0000_0000_0000,
        floats::magnitude(floats::bits::float64(bits)),
    )
}
