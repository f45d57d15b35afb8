// A window of the ring in one call, as patterns or as floats, and a push of floats, on the word and the buffer that a host lends. The ring's other calls are in crate ring_face.
#![tactic(auto)]

ghost use Rattle.std.specs.Prelude.{◌≡◌, length};
ghost use Rattle.words.specs.Answers.{number, given};
ghost use Rattle.ring_window.specs.Told.{reading_told};
ghost use Rattle.ring_window_face.specs.Calls.{window_values, judged_ring, window_called, window_floats_called, push_floats_called};

use ring_window::Reading;
use ring_words::answering;

// How many values a window is lent a list for.
const VALUES: usize = 2;

// Judges the lengths. A ring has no setting that could be outside the table. ring_face has this function too: the contract of each cites the definition of its own face.
fn judge(state: &[u64], values_fit: bool) -> u32
    ensures { result ≡ judged_ring state.now values_fit }
{
    if state.len() != ring_words::WORDS {
        return answers::WRONG_LENGTH as u32;
    }
    face::setting_first(true, values_fit)
}

fn tell_reading(values: &mut [u64], reading: Reading) -> u32
    requires { length values.old ≡ window_values }
    ensures number { result ≡ number (reading_told reading) }
    ensures values { values.new ≡ given values.old (reading_told reading) }
{
    match reading {
        Reading::Refused(n) => n as u32,
        Reading::Read(missing) => {
            values[0] = missing.head;
            values[1] = missing.tail;
            16
        }
    }
}

// Reads the window that begins `back` samples before absolute index `at`; values[0] is how many samples are missing at its head, values[1] how many at its tail.
#[unsafe(no_mangle)]
pub extern "C" fn tmv_ring_window(
    state: &[u64],
    buf: &[u32],
    at: u64,
    back: u64,
    window: &mut [u32],
    values: &mut [u64],
) -> u32
    ensures number { result ≡ (window_called state.now buf.now at back window.old values.old).number }
    ensures window { window.new ≡ (window_called state.now buf.now at back window.old values.old).buffers }
    ensures values { values.new ≡ (window_called state.now buf.now at back window.old values.old).values }
{
    let refusal = judge(state, values.len() == VALUES);
    if refusal != 0 {
        return refusal;
    }
    let reading = ring_window::window(ring_words::load(state), buf, at, back, window);
    tell_reading(values, reading)
}

// Reads the same window as floats.
#[unsafe(no_mangle)]
pub extern "C" fn tmv_ring_window_floats(
    state: &[u64],
    buf: &[u32],
    at: u64,
    back: u64,
    window: &mut [f32],
    values: &mut [u64],
) -> u32
    ensures number { result ≡ (window_floats_called state.now buf.now at back window.old values.old).number }
    ensures window { window.new ≡ (window_floats_called state.now buf.now at back window.old values.old).buffers }
    ensures values { values.new ≡ (window_floats_called state.now buf.now at back window.old values.old).values }
{
    let refusal = judge(state, values.len() == VALUES);
    if refusal != 0 {
        return refusal;
    }
    let reading = ring_window::window_floats(ring_words::load(state), buf, at, back, window);
    tell_reading(values, reading)
}

// Appends far samples as floats, in the order in which they were played.
#[unsafe(no_mangle)]
pub extern "C" fn tmv_ring_push_floats(state: &mut [u64], buf: &mut [u32], samples: &[f32]) -> u32
    ensures number { result ≡ (push_floats_called state.old buf.old samples.now).number }
    ensures words { state.new ≡ (push_floats_called state.old buf.old samples.now).words }
    ensures buf { buf.new ≡ (push_floats_called state.old buf.old samples.now).buffers }
{
    let refusal = judge(state, true);
    if refusal != 0 {
        return refusal;
    }
    let changed = ring_window::push_floats(ring_words::load(state), buf, samples);
    answering::settle_change(state, changed)
}
