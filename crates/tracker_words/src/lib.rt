// Loads a tracker's state from the 15 words that a host lends, stores it there, and turns its calls' answers into numbers and values. specs/Layout.antt says where each field is.
#![tactic(auto)]

ghost use Rattle.std.specs.Prelude.{◌≡◌, length};
ghost use Rattle.tracker_words.specs.Layout.{tracker_words, loaded_bands, loaded_delay, are_cases, loaded_pending, loaded, delay_flag, delay_word, stored, settled};

use tracker::{Bands, Tracker};
use units::Samples;

pub mod answering; // what a call answers

pub const WORDS: usize = 15;

fn load_bands(state: &[u64]) -> Bands
    requires { length state.now ≡ tracker_words }
    ensures { result ≡ loaded_bands state.now }
{
    Bands {
        late: state[1],
        early: state[2],
        agree: state[3],
        apart: state[4],
        lead: state[5],
    }
}

fn load_delay(flag: u64, delay: u64) -> Option<Samples>
    ensures { result ≡ loaded_delay flag delay }
{
    if flag == 0 {
        return None;
    }
    Some(Samples(delay))
}

// Tells whether each flag is 0 or 1, and each run and the largest one is a number of 32 bits.
fn are_cases(state: &[u64]) -> bool
    requires { length state.now ≡ tracker_words }
    ensures { result ≡ are_cases state.now }
{
    words::all_below(2, state[6], state[8], state[13])
        && words::all_below(0x1_0000_0000, state[10], state[11], state[12])
        && state[14] < 0x1_0000_0000
}

fn load_pending(state: &[u64]) -> Option<Samples>
    requires { length state.now ≡ tracker_words }
    ensures { result ≡ loaded_pending state.now }
{
    if are_cases(state) {
        return load_delay(state[6], state[7]);
    }
    Some(Samples(answers::LIMIT))
}

pub fn load(state: &[u64]) -> Tracker
    requires { length state.now ≡ tracker_words }
    ensures { result ≡ loaded state.now }
{
    Tracker {
        rate: words::half(state[0], 0),
        bands: load_bands(state),
        pending: load_pending(state),
        prev: load_delay(state[8], state[9]),
        edges: words::half(state[10], 0),
        jumps: words::half(state[11], 0),
        unconfident: words::half(state[12], 0),
        suspect: state[13] == 1,
        largest: words::half(state[14], 0),
    }
}

fn delay_flag(delay: Option<Samples>) -> u64
    ensures { result ≡ delay_flag delay }
{
    words::flag(delay.is_some())
}

// Without a delay, its word keeps what it held.
fn delay_word(old: u64, delay: Option<Samples>) -> u64
    ensures { result ≡ delay_word old delay }
{
    delay.map_or(old, |d| d.0)
}

fn store(state: &mut [u64], tracker: Tracker)
    requires { length state.old ≡ tracker_words }
    ensures { state.new ≡ stored state.old tracker }
{
    let stored = [
        tracker.rate as u64,
        tracker.bands.late,
        tracker.bands.early,
        tracker.bands.agree,
        tracker.bands.apart,
        tracker.bands.lead,
        delay_flag(tracker.pending),
        delay_word(state[7], tracker.pending),
        delay_flag(tracker.prev),
        delay_word(state[9], tracker.prev),
        tracker.edges as u64,
        tracker.jumps as u64,
        tracker.unconfident as u64,
        words::flag(tracker.suspect),
        tracker.largest as u64,
    ];
    words::put(&stored, state);
}

// Stores what a call leaves in the words, nothing new if it was refused, and returns the call's number.
pub fn settle(state: &mut [u64], number: u32, tracker: Tracker) -> u32
    requires { length state.old ≡ tracker_words }
    ensures number { result ≡ number }
    ensures words { state.new ≡ settled state.old number tracker }
{
    if number < 16 {
        return number;
    }
    store(state, tracker);
    number
}
