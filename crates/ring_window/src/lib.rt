// A window of the far reference ring in one call, as patterns or as floats, and a push of floats. Ring and buffer are those of crate ring.
// No call has a `requires`: a bad call is refused by the ring's own number, and writes nothing. Each contract is one equation with a definition of specs/Window for the answer and one for what is lent.
#![tactic(auto)]

mod cutting; // where a window meets the ring
mod blanks; // the places of a window that are missing
mod patterns; // a window is written as patterns
mod values; // a window is written as floats
mod storing; // floats go into the buffer

ghost use Rattle.std.specs.Prelude.{◌≡◌, length};
ghost use Rattle.ring_window.specs.Window.{reading_of, window_read, floats_read, floats_pushed, floats_pushed_buf};

use answers::{Change, Count};
use ring::{Changed, Ring};

// How many samples of a window are missing: before its first kept one, and behind its last pushed one.
#[derive(Clone, Copy)]
pub struct Missing {
    pub head: u64,
    pub tail: u64,
}

#[derive(Clone, Copy)]
pub enum Reading {
    Refused(u8),
    Read(Missing),
}

// How a window is cut: missing places at its head and its tail; between them places of the buffer from a slot on, and then from its start on.
#[derive(Clone, Copy)]
pub struct Cut {
    pub head: usize,
    pub slot: usize,
    pub run: usize,
    pub wrapped: usize,
    pub tail: usize,
}

// Reads the window that begins `back` samples before absolute index `at`.
pub fn window(ring: Ring, buf: &[u32], at: u64, back: u64, window: &mut [u32]) -> Reading
    ensures answer { result ≡ reading_of ring (length buf.now) at back (length window.old) }
    ensures window { window.new ≡ window_read ring buf.now at back window.old }
{
    let next = ring.next_abs(buf);
    match next {
        Count::Refused(n) => Reading::Refused(n),
        Count::Is(accepted) => {
            let c = cutting::cut(accepted, buf.len(), at, back, window.len());
            patterns::fill(window, buf, c);
            Reading::Read(Missing {
                head: c.head as u64,
                tail: c.tail as u64,
            })
        }
    }
}

// Reads the same window as floats.
pub fn window_floats(ring: Ring, buf: &[u32], at: u64, back: u64, window: &mut [f32]) -> Reading
    ensures answer { result ≡ reading_of ring (length buf.now) at back (length window.old) }
    ensures window { window.new ≡ floats_read ring buf.now at back window.old }
{
    let next = ring.next_abs(buf);
    match next {
        Count::Refused(n) => Reading::Refused(n),
        Count::Is(accepted) => {
            let c = cutting::cut(accepted, buf.len(), at, back, window.len());
            values::fill(window, buf, c);
            Reading::Read(Missing {
                head: c.head as u64,
                tail: c.tail as u64,
            })
        }
    }
}

// Appends floats as their patterns, overwriting the oldest retained samples once the ring is full.
pub fn push_floats(ring: Ring, buf: &mut [u32], samples: &[f32]) -> Changed
    ensures answer { result ≡ floats_pushed ring (length buf.old) samples.now }
    ensures buf { buf.new ≡ floats_pushed_buf ring buf.old samples.now }
{
    let next = ring.next_abs(buf);
    match next {
        Count::Refused(n) => Changed {
            ring,
            answer: Change::Refused(n),
        },
        Count::Is(accepted) => {
            if samples.len() as u64 > answers::LIMIT - accepted {
                return Changed {
                    ring,
                    answer: Change::Refused(answers::TOO_LARGE),
                };
            }
            storing::store_all(buf, accepted, samples);
            Changed {
                ring: Ring {
                    accepted: accepted + samples.len() as u64,
                },
                answer: Change::Done,
            }
        }
    }
}
