// Loads a fine state from the 14 words that a host lends, stores it there, and turns its calls' answers into numbers and values. specs/Layout.antt says where each field is.
#![tactic(auto)]

ghost use Rattle.std.specs.Prelude.{◌≡◌, length};
ghost use Rattle.fine_words.specs.Layout.{fine_words, loaded_lengths, are_cases, loaded_origin, loaded_frames, loaded_peak_at, loaded_scans, loaded, peak_flag, first_word, last_word, stored, settled};

use fine::{Fine, Frames, Lengths, Positions, Scans};
use units::Samples;

pub mod answering; // what a call answers

pub const WORDS: usize = 14;

fn load_lengths(state: &[u64]) -> Lengths
    requires { length state.now ≡ fine_words }
    ensures { result ≡ loaded_lengths state.now }
{
    Lengths {
        span: words::half(state[0], 0),
        transform: state[1],
        frame: state[2],
    }
}

// Tells whether each flag is 0 or 1, and each count of frames is a number of 32 bits.
fn are_cases(state: &[u64]) -> bool
    requires { length state.now ≡ fine_words }
    ensures { result ≡ are_cases state.now }
{
    state[5] < 2 && state[6] < 0x1_0000_0000 && state[7] < 0x1_0000_0000 && state[10] < 2
}

fn load_origin(state: &[u64]) -> Samples
    requires { length state.now ≡ fine_words }
    ensures { result ≡ loaded_origin state.now }
{
    if are_cases(state) {
        return Samples(state[3]);
    }
    Samples(answers::LIMIT)
}

fn load_frames(state: &[u64]) -> Frames
    requires { length state.now ≡ fine_words }
    ensures { result ≡ loaded_frames state.now }
{
    Frames {
        len: state[4],
        retained: state[5] == 1,
        taken: words::half(state[6], 0),
        skipped: words::half(state[7], 0),
    }
}

fn load_peak_at(state: &[u64]) -> Option<Positions>
    requires { length state.now ≡ fine_words }
    ensures { result ≡ loaded_peak_at state.now }
{
    if state[10] == 0 {
        return None;
    }
    Some(Positions {
        first: state[11],
        last: state[13],
    })
}

fn load_scans(state: &[u64]) -> Scans
    requires { length state.now ≡ fine_words }
    ensures { result ≡ loaded_scans state.now }
{
    Scans {
        count: state[8],
        ratio: floats::bits::float64(state[9]),
        peak_at: load_peak_at(state),
        origin: Samples(state[12]),
    }
}

pub fn load(state: &[u64]) -> Fine
    requires { length state.now ≡ fine_words }
    ensures { result ≡ loaded state.now }
{
    Fine {
        lengths: load_lengths(state),
        origin: load_origin(state),
        frames: load_frames(state),
        scans: load_scans(state),
    }
}

fn peak_flag(peak_at: Option<Positions>) -> u64
    ensures { result ≡ peak_flag peak_at }
{
    words::flag(peak_at.is_some())
}

// Without a position, its words keep what they held.
fn first_word(old: u64, peak_at: Option<Positions>) -> u64
    ensures { result ≡ first_word old peak_at }
{
    peak_at.map_or(old, |at| at.first)
}

fn last_word(old: u64, peak_at: Option<Positions>) -> u64
    ensures { result ≡ last_word old peak_at }
{
    peak_at.map_or(old, |at| at.last)
}

fn store(state: &mut [u64], fine: Fine)
    requires { length state.old ≡ fine_words }
    ensures { state.new ≡ stored state.old fine }
{
    let Fine {
        lengths,
        origin,
        frames,
        scans,
    } = fine;
    let stored = [
        lengths.span as u64,
        lengths.transform,
        lengths.frame,
        origin.0,
        frames.len,
        words::flag(frames.retained),
        frames.taken as u64,
        frames.skipped as u64,
        scans.count,
        words::pattern(state[9], scans.ratio),
        peak_flag(scans.peak_at),
        first_word(state[11], scans.peak_at),
        scans.origin.0,
        last_word(state[13], scans.peak_at),
    ];
    words::put(&stored, state);
}

// Stores what a call leaves in the words, nothing new if it was refused, and returns the call's number.
pub fn settle(state: &mut [u64], number: u32, fine: Fine) -> u32
    requires { length state.old ≡ fine_words }
    ensures number { result ≡ number }
    ensures words { state.new ≡ settled state.old number fine }
{
    if number < 16 {
        return number;
    }
    store(state, fine);
    number
}
