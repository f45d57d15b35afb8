// The samples of stored calls, which a small generator of integers makes. tests/ring/README.md and tests/scan/README.md describe it.
ghost use Rattle.std.specs.Prelude.{◌+◌, ◌≤◌, length};

// What a record says of its samples.
#[derive(Clone, Copy)]
pub struct Signal {
    seed: u32,
    mask: u32,
    shape: u32,
    period: u32,
    hold: u64,
    base: u64,
    spread: u64,
}

// One round of mixing.
fn mixed(x: u64) -> u64 {
    let y = x % 0x1_0000_0000;
    let z = y ^ (y >> 16);
    (z % 0x1_0000_0000) * 0x045d_9f3b % 0x1_0000_0000
}

// Word n of a seed.
pub fn word(seed: u32, n: u64) -> u32 {
    let start = (seed as u64 + (n % 0x1_0000_0000) * 0x9e37_79b9) % 0x1_0000_0000;
    let x = mixed(mixed(start));
    let y = x ^ (x >> 16);
    (y % 0x1_0000_0000) as u32
}

// The 20 bytes from `at` on.
pub fn read(bytes: &[u8], at: usize) -> Signal
    requires { at + 20 ≤ length bytes.now }
{
    Signal {
        seed: crate::number32(bytes, at),
        mask: crate::number32(bytes, at + 4),
        shape: crate::number32(bytes, at + 8),
        period: crate::number32(bytes, at + 12),
        hold: crate::number(bytes, at + 16, 2),
        base: crate::number(bytes, at + 18, 1),
        spread: crate::number(bytes, at + 19, 1),
    }
}

// A period of 0 is none.
fn in_period(place: u64, period: u32) -> u64 {
    place.checked_rem(period as u64).unwrap_or(place)
}

// A record whose signal is not used has hold 0.
fn held(n: u64, hold: u64) -> u64 {
    n.checked_div(hold).unwrap_or(n)
}

impl Signal {
    fn exponent(self, n: u64) -> u32 {
        let more = word(self.shape, held(n, self.hold)) as u64 & self.spread;
        ((self.base % 256 + more % 256) % 256) as u32
    }

    pub fn at(self, place: u64) -> f32 {
        let n = in_period(place, self.period);
        let fraction = word(self.seed, n) & self.mask & 0x807f_ffff;
        floats::bits::float32(fraction | (self.exponent(n) << 23))
    }

    // The samples from `place` on.
    pub fn fill(self, out: &mut [f32], place: u64) {
        for (i, sample) in out.iter_mut().enumerate() {
            *sample = self.at(place.wrapping_add(i as u64));
        }
    }
}
