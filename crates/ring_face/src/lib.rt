// The ring's calls. Its state is one word: how many samples were accepted. The buffer is lent with each call, and its length is the capacity.
#![tactic(auto)]

ghost use Rattle.std.specs.Prelude.{◌≡◌};
ghost use Rattle.ring_words.specs.Layout.{ring_words};
ghost use Rattle.ring_face.specs.Calls.{judged_ring, new_called, push_called, clear_called, get_called, next_abs_called, capacity_called, dropped_called};

use ring::Ring;
use ring_words::answering;

// Judges the lengths. A ring has no setting that could be outside the table. ring_window_face has this function too: the contract of each cites the definition of its own face.
fn judge(state: &[u64], values_fit: bool) -> u32
    ensures { result ≡ judged_ring state.now values_fit }
{
    if state.len() != ring_words::WORDS {
        return answers::WRONG_LENGTH as u32;
    }
    face::setting_first(true, values_fit)
}

// Returns how many words a ring's state has.
#[unsafe(no_mangle)]
pub extern "C" fn tmv_ring_words() -> u64
    ensures { result ≡ ring_words }
{
    ring_words::WORDS as u64
}

// ---- calls that change the ring

// Makes a ring over `buf`, which it does not write.
#[unsafe(no_mangle)]
pub extern "C" fn tmv_ring_new(state: &mut [u64], buf: &[u32]) -> u32
    ensures number { result ≡ (new_called state.old buf.now).number }
    ensures words { state.new ≡ (new_called state.old buf.now).words }
{
    let refusal = judge(state, true);
    if refusal != 0 {
        return refusal;
    }
    answering::settle_change(state, Ring::new(buf))
}

// Appends far samples as patterns, in the order in which they were played.
#[unsafe(no_mangle)]
pub extern "C" fn tmv_ring_push(state: &mut [u64], buf: &mut [u32], samples: &[u32]) -> u32
    ensures number { result ≡ (push_called state.old buf.old samples.now).number }
    ensures words { state.new ≡ (push_called state.old buf.old samples.now).words }
    ensures buf { buf.new ≡ (push_called state.old buf.old samples.now).buffers }
{
    let refusal = judge(state, true);
    if refusal != 0 {
        return refusal;
    }
    let changed = ring_words::load(state).push(buf, samples);
    answering::settle_change(state, changed)
}

// Forgets all samples.
#[unsafe(no_mangle)]
pub extern "C" fn tmv_ring_clear(state: &mut [u64], buf: &[u32]) -> u32
    ensures number { result ≡ (clear_called state.old buf.now).number }
    ensures words { state.new ≡ (clear_called state.old buf.now).words }
{
    let refusal = judge(state, true);
    if refusal != 0 {
        return refusal;
    }
    answering::settle_change(state, ring_words::load(state).clear(buf))
}

// ---- reports

// Finds the place in `buf` of the sample at absolute index `at`, if it is kept.
#[unsafe(no_mangle)]
pub extern "C" fn tmv_ring_get(state: &[u64], buf: &[u32], at: u64, values: &mut [u64]) -> u32
    ensures number { result ≡ (get_called state.now buf.now at values.old).number }
    ensures values { values.new ≡ (get_called state.now buf.now at values.old).values }
{
    let refusal = judge(state, values.len() == words::ONE_VALUE);
    if refusal != 0 {
        return refusal;
    }
    answering::tell_kept(values, ring_words::load(state).get(buf, at))
}

// Reports the absolute index of the next sample.
#[unsafe(no_mangle)]
pub extern "C" fn tmv_ring_next_abs(state: &[u64], buf: &[u32], values: &mut [u64]) -> u32
    ensures number { result ≡ (next_abs_called state.now buf.now values.old).number }
    ensures values { values.new ≡ (next_abs_called state.now buf.now values.old).values }
{
    let refusal = judge(state, values.len() == words::ONE_VALUE);
    if refusal != 0 {
        return refusal;
    }
    words::tell_count(values, ring_words::load(state).next_abs(buf))
}

// Reports the capacity: how many samples back from the next one the ring keeps.
#[unsafe(no_mangle)]
pub extern "C" fn tmv_ring_capacity(state: &[u64], buf: &[u32], values: &mut [u64]) -> u32
    ensures number { result ≡ (capacity_called state.now buf.now values.old).number }
    ensures values { values.new ≡ (capacity_called state.now buf.now values.old).values }
{
    let refusal = judge(state, values.len() == words::ONE_VALUE);
    if refusal != 0 {
        return refusal;
    }
    words::tell_count(values, ring_words::load(state).capacity(buf))
}

// Reports how many samples were overwritten since the making or the last clearing.
#[unsafe(no_mangle)]
pub extern "C" fn tmv_ring_dropped(state: &[u64], buf: &[u32], values: &mut [u64]) -> u32
    ensures number { result ≡ (dropped_called state.now buf.now values.old).number }
    ensures values { values.new ≡ (dropped_called state.now buf.now values.old).values }
{
    let refusal = judge(state, values.len() == words::ONE_VALUE);
    if refusal != 0 {
        return refusal;
    }
    words::tell_count(values, ring_words::load(state).dropped(buf))
}
