// Numbers among the arguments. The front hands over decimal digits and nothing else; one too large becomes the largest.
ghost use Rattle.std.specs.Prelude.{◌≤◌};

use pipes::rooms;
use std::env::Env;

fn digit(b: u8) -> u64
    ensures { result ≤ 9 }
{
    if b < 48 {
        return 0;
    }
    if 57 < b {
        return 0;
    }
    b as u64 - 48
}

fn decimal(text: &[u8]) -> u64 {
    let mut value: u64 = 0;
    let mut i = 0;
    while i < text.len() {
        if 1_000_000_000_000_000_000 <= value {
            return u64::MAX;
        }
        value = value * 10 + digit(text[i]);
        i += 1;
    }
    value
}

pub fn argument(rt: &impl Env, i: usize) -> u64 {
    let mut text = rooms::name();
    match rt.arg(i, &mut text) {
        Ok(n) => decimal(&text[..n]),
        Err(_) => decimal(b""),
    }
}

pub fn argument32(rt: &impl Env, i: usize) -> u32 {
    let n = argument(rt, i);
    if n <= 0xffff_ffff {
        return n as u32;
    }
    u32::MAX
}
