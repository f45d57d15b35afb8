// A recording of 16-bit samples as one of the scope paper's form, and back.
#![tactic(auto)]

ghost use Rattle.std.specs.Prelude.{◌≡◌};
ghost use Rattle.recording.specs.Recording.{event_at};
ghost use Rattle.recording_convert.specs.Whole.{judged};

use recording::{Header, Lengths, Used};

// Which way: from signed 16-bit samples to f32 ones, or from f32 samples to 16-bit ones.
#[derive(Clone, Copy)]
pub enum Direction {
    ToFloats,
    ToShorts,
}

// The input that an event has samples of, if it has any.
#[derive(Clone, Copy)]
pub enum Side {
    FarSide,
    NearSide,
    NoSide,
}

// Judges the entry in the 16 bytes from at on, in a first pass over the events: what is used behind it, or that the recording is not whole.
pub fn judge(header: Header, lengths: Lengths, used: Used, events: &[u8], at: usize) -> Option<Used>
    ensures { result ≡ judged header lengths used (event_at events.now at) }
{
    let entry = recording::event_at(events, at);
    match entry {
        None => None,
        Some(event) => recording::admit(header, lengths, used, event),
    }
}
