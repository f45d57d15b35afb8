// Floats of both widths by their bit patterns, and the hash that stands for a whole buffer of them.
ghost use Rattle.std.specs.Prelude.{◌≤◌, ◌<◌};

use floats::bits;
use pipes::rooms;
use std::fs::File;

// The hash of a list of words so far.
#[derive(Clone, Copy)]
pub struct Running {
    so_far: u64,
    ghost below: { so_far < 4294967291 },
}

impl Running {
    fn new() -> Running {
        Running { so_far: 1 }
    }

    // One more word.
    fn then(self, word: u32) -> Running {
        Running {
            so_far: (self.so_far * 16777619 + word as u64) % 4294967291,
        }
    }
}

// A float that a file holds by its bits, in so many bytes. The two impls of this trait are alike but for the format: its width, and which functions of `floats::bits` read and write it.
pub trait Stored: Copy {
    fn width() -> usize
        ensures { result ≤ 8 };

    fn pattern(self) -> u64;

    // Bits that the float has no room for are left out.
    fn of(pattern: u64) -> Self;

    // A hash goes on with its words, the low one first.
    fn hashed(self, h: Running) -> Running;
}

impl Stored for f32 {
    fn width() -> usize
        ensures { result ≤ 8 }
    {
        4
    }

    fn pattern(self) -> u64 {
        bits::pattern32(self) as u64
    }

    fn of(pattern: u64) -> f32 {
        bits::float32((pattern % 0x1_0000_0000) as u32)
    }

    fn hashed(self, h: Running) -> Running {
        h.then(bits::pattern32(self))
    }
}

impl Stored for f64 {
    fn width() -> usize
        ensures { result ≤ 8 }
    {
        8
    }

    fn pattern(self) -> u64 {
        bits::pattern64(self)
    }

    fn of(pattern: u64) -> f64 {
        bits::float64(pattern)
    }

    fn hashed(self, h: Running) -> Running {
        let pattern = bits::pattern64(self);
        h.then((pattern % 0x1_0000_0000) as u32)
            .then((pattern / 0x1_0000_0000) as u32)
    }
}

// The pattern of the next float of a file.
pub fn next<T: Stored>(from: Option<&File>) -> u64 {
    let mut bytes = [0u8; 8];
    rooms::fill(from, &mut bytes[..T::width()]);
    crate::number(&bytes, 0, 8)
}

pub fn hash<T: Stored>(xs: &[T]) -> u64 {
    xs.iter().fold(Running::new(), |h, x| x.hashed(h)).so_far
}
