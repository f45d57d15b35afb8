// The fine stage's calls. crates/fine_words/specs/Layout.antt says where each field of its state is.
#![tactic(auto)]

ghost use Rattle.std.specs.Prelude.{◌≡◌, ◌+◌};
ghost use Rattle.fine.specs.State.{frame_of, window_of};
ghost use Rattle.fine_words.specs.Layout.{fine_words};
ghost use Rattle.fine_face.specs.Calls.{length_for, judged_fine, new_called, restart_called, relocate_called, reset_called, push_near_called, gate_called, rescan_called, peak_called, state_frame_len_called, state_window_len_called, max_delay_called, window_back_off_called, search_range_called, frames_called, skipped_called, last_scan_ratio_called, last_scan_peak_at_called, last_scan_origin_called, scans_called};

use fine::{Fine, Lengths};
use fine_words::answering;
use units::Samples;

// fine_handover_face has this function too: the contract of each cites the definition of its own face.
fn judge(state: &[u64], values_fit: bool) -> u32
    ensures { result ≡ judged_fine state.now values_fit }
{
    if state.len() != fine_words::WORDS {
        return answers::WRONG_LENGTH as u32;
    }
    face::setting_first(answers::allowed_span(words::half(state[0], 0)), values_fit)
}

// ---- lengths, by the span; 0 if it is outside the table

// Returns how many words a fine state has.
#[unsafe(no_mangle)]
pub extern "C" fn tmv_fine_words() -> u64
    ensures { result ≡ fine_words }
{
    fine_words::WORDS as u64
}

// Returns the length of the near and of the retained frame.
#[unsafe(no_mangle)]
pub extern "C" fn tmv_fine_frame_len(span: u32) -> u64
    ensures { result ≡ length_for span (frame_of span) }
{
    if !answers::allowed_span(span) {
        return 0;
    }
    let lengths = Lengths::of(span);
    lengths.frame
}

// Returns the length of the far window.
#[unsafe(no_mangle)]
pub extern "C" fn tmv_fine_window_len(span: u32) -> u64
    ensures { result ≡ length_for span (window_of span) }
{
    if !answers::allowed_span(span) {
        return 0;
    }
    let lengths = Lengths::of(span);
    lengths.frame + span as u64
}

// Returns the least length of the correlation.
#[unsafe(no_mangle)]
pub extern "C" fn tmv_fine_correlation_len(span: u32) -> u64
    ensures { result ≡ length_for span (span + 1) }
{
    if !answers::allowed_span(span) {
        return 0;
    }
    span as u64 + 1
}

// ---- calls that change the state

// Makes a state for delays of `span` samples from the origin on.
#[unsafe(no_mangle)]
pub extern "C" fn tmv_fine_new(state: &mut [u64], span: u32) -> u32
    ensures number { result ≡ (new_called state.old span).number }
    ensures words { state.new ≡ (new_called state.old span).words }
{
    let refusal = face::setting_first(
        answers::allowed_span(span),
        state.len() == fine_words::WORDS,
    );
    if refusal != 0 {
        return refusal;
    }
    answering::settle_change(state, Fine::new(span))
}

// Drops the near frame under way and sets the count of frames taken to 0.
#[unsafe(no_mangle)]
pub extern "C" fn tmv_fine_restart(state: &mut [u64]) -> u32
    ensures number { result ≡ (restart_called state.old).number }
    ensures words { state.new ≡ (restart_called state.old).words }
{
    let refusal = judge(state, true);
    if refusal != 0 {
        return refusal;
    }
    answering::settle_change(state, fine_words::load(state).restart())
}

// Moves the search to another origin.
#[unsafe(no_mangle)]
pub extern "C" fn tmv_fine_relocate(state: &mut [u64], origin: u64) -> u32
    ensures number { result ≡ (relocate_called state.old origin).number }
    ensures words { state.new ≡ (relocate_called state.old origin).words }
{
    let refusal = judge(state, true);
    if refusal != 0 {
        return refusal;
    }
    answering::settle_change(state, fine_words::load(state).relocate(Samples(origin)))
}

// Resets the state to what it was when it was made.
#[unsafe(no_mangle)]
pub extern "C" fn tmv_fine_reset(state: &mut [u64]) -> u32
    ensures number { result ≡ (reset_called state.old).number }
    ensures words { state.new ≡ (reset_called state.old).words }
{
    let refusal = judge(state, true);
    if refusal != 0 {
        return refusal;
    }
    answering::settle_change(state, fine_words::load(state).reset())
}

// Appends one near sample to the near frame.
#[unsafe(no_mangle)]
pub extern "C" fn tmv_fine_push_near(state: &mut [u64], near: &mut [f32], sample: f32) -> u32
    ensures number { result ≡ (push_near_called state.old near.old sample).number }
    ensures words { state.new ≡ (push_near_called state.old near.old sample).words }
    ensures near { near.new ≡ (push_near_called state.old near.old sample).buffers }
{
    let refusal = judge(state, true);
    if refusal != 0 {
        return refusal;
    }
    let took = fine_gate::push_near(fine_words::load(state), near, sample);
    let next = took.fine;
    let answer = took.answer;
    fine_words::settle(state, answering::taking_number(answer), next)
}

// Says whether the full near frame counts, and consumes it.
#[unsafe(no_mangle)]
pub extern "C" fn tmv_fine_gate(
    state: &mut [u64],
    near: &[f32],
    retained: &mut [f32],
    far: &[f32],
    missing_head: u64,
    missing_tail: u64,
) -> u32
    ensures number { result ≡ (gate_called state.old near.now retained.old far.now missing_head missing_tail).number }
    ensures words { state.new ≡ (gate_called state.old near.now retained.old far.now missing_head missing_tail).words }
    ensures retained { retained.new ≡ (gate_called state.old near.now retained.old far.now missing_head missing_tail).buffers }
{
    let refusal = judge(state, true);
    if refusal != 0 {
        return refusal;
    }
    let gated = fine_gate::gate(
        fine_words::load(state),
        near,
        retained,
        far,
        missing_head,
        missing_tail,
    );
    let next = gated.fine;
    let answer = gated.answer;
    fine_words::settle(state, answering::gate_number(answer), next)
}

// Says whether the retained frame counts with another far window. Counts nothing and forgets nothing.
#[unsafe(no_mangle)]
pub extern "C" fn tmv_fine_rescan(
    state: &[u64],
    retained: &[f32],
    far: &[f32],
    missing_head: u64,
    missing_tail: u64,
) -> u32
    ensures { result ≡ (rescan_called state.now retained.now far.now missing_head missing_tail).number }
{
    let refusal = judge(state, true);
    if refusal != 0 {
        return refusal;
    }
    let rescanned = fine_gate::rescan(
        fine_words::load(state),
        retained,
        far,
        missing_head,
        missing_tail,
    );
    let answer = rescanned.answer;
    answering::rescan_number(answer)
}

// Searches the host's correlation for a candidate. Writes its delay, the peak's first position, the ratio's pattern and the peak's last position. Without
// a candidate it writes only the two positions.
#[unsafe(no_mangle)]
pub extern "C" fn tmv_fine_peak(state: &mut [u64], correlation: &[f32], values: &mut [u64]) -> u32
    ensures number { result ≡ (peak_called state.old correlation.now values.old).number }
    ensures words { state.new ≡ (peak_called state.old correlation.now values.old).words }
    ensures values { values.new ≡ (peak_called state.old correlation.now values.old).values }
{
    let refusal = judge(state, values.len() == answering::PEAK_VALUES);
    if refusal != 0 {
        return refusal;
    }
    let searched = fine_peak::peak(fine_words::load(state), correlation);
    let next = searched.fine;
    let answer = searched.answer;
    fine_words::settle(state, answering::tell_peak(values, answer), next)
}

// ---- reports

// Reports how many near samples make a frame of this state.
#[unsafe(no_mangle)]
pub extern "C" fn tmv_fine_state_frame_len(state: &[u64], values: &mut [u64]) -> u32
    ensures number { result ≡ (state_frame_len_called state.now values.old).number }
    ensures values { values.new ≡ (state_frame_len_called state.now values.old).values }
{
    let refusal = judge(state, values.len() == words::ONE_VALUE);
    if refusal != 0 {
        return refusal;
    }
    answering::tell_samples(values, fine_words::load(state).frame_len())
}

// Reports how many far samples one frame of this state needs.
#[unsafe(no_mangle)]
pub extern "C" fn tmv_fine_state_window_len(state: &[u64], values: &mut [u64]) -> u32
    ensures number { result ≡ (state_window_len_called state.now values.old).number }
    ensures values { values.new ≡ (state_window_len_called state.now values.old).values }
{
    let refusal = judge(state, values.len() == words::ONE_VALUE);
    if refusal != 0 {
        return refusal;
    }
    answering::tell_samples(values, fine_words::load(state).window_len())
}

// Reports the span.
#[unsafe(no_mangle)]
pub extern "C" fn tmv_fine_max_delay(state: &[u64], values: &mut [u64]) -> u32
    ensures number { result ≡ (max_delay_called state.now values.old).number }
    ensures values { values.new ≡ (max_delay_called state.now values.old).values }
{
    let refusal = judge(state, values.len() == words::ONE_VALUE);
    if refusal != 0 {
        return refusal;
    }
    answering::tell_samples(values, fine_words::load(state).max_delay())
}

// Reports how far the far window's start lies before the near frame's start.
#[unsafe(no_mangle)]
pub extern "C" fn tmv_fine_window_back_off(state: &[u64], values: &mut [u64]) -> u32
    ensures number { result ≡ (window_back_off_called state.now values.old).number }
    ensures values { values.new ≡ (window_back_off_called state.now values.old).values }
{
    let refusal = judge(state, values.len() == words::ONE_VALUE);
    if refusal != 0 {
        return refusal;
    }
    answering::tell_samples(values, fine_words::load(state).window_back_off())
}

// Reports the first and the last delay that are searched.
#[unsafe(no_mangle)]
pub extern "C" fn tmv_fine_search_range(state: &[u64], values: &mut [u64]) -> u32
    ensures number { result ≡ (search_range_called state.now values.old).number }
    ensures values { values.new ≡ (search_range_called state.now values.old).values }
{
    let refusal = judge(state, values.len() == answering::RANGE_VALUES);
    if refusal != 0 {
        return refusal;
    }
    answering::tell_range(values, fine_words::load(state).search_range())
}

// Counts the frames taken at this origin.
#[unsafe(no_mangle)]
pub extern "C" fn tmv_fine_frames(state: &[u64], values: &mut [u64]) -> u32
    ensures number { result ≡ (frames_called state.now values.old).number }
    ensures values { values.new ≡ (frames_called state.now values.old).values }
{
    let refusal = judge(state, values.len() == words::ONE_VALUE);
    if refusal != 0 {
        return refusal;
    }
    words::tell_count(values, fine_words::load(state).frames())
}

// Counts the frames skipped since the making or the last reset.
#[unsafe(no_mangle)]
pub extern "C" fn tmv_fine_skipped(state: &[u64], values: &mut [u64]) -> u32
    ensures number { result ≡ (skipped_called state.now values.old).number }
    ensures values { values.new ≡ (skipped_called state.now values.old).values }
{
    let refusal = judge(state, values.len() == words::ONE_VALUE);
    if refusal != 0 {
        return refusal;
    }
    words::tell_count(values, fine_words::load(state).skipped())
}

// Reports the ratio of the last scan, as its pattern.
#[unsafe(no_mangle)]
pub extern "C" fn tmv_fine_last_scan_ratio(state: &[u64], values: &mut [u64]) -> u32
    ensures number { result ≡ (last_scan_ratio_called state.now values.old).number }
    ensures values { values.new ≡ (last_scan_ratio_called state.now values.old).values }
{
    let refusal = judge(state, values.len() == words::ONE_VALUE);
    if refusal != 0 {
        return refusal;
    }
    answering::tell_ratio(values, state[9], fine_words::load(state).last_scan_ratio())
}

// Reports the first and the last position of the last scan's peak, if there was a scan.
#[unsafe(no_mangle)]
pub extern "C" fn tmv_fine_last_scan_peak_at(state: &[u64], values: &mut [u64]) -> u32
    ensures number { result ≡ (last_scan_peak_at_called state.now values.old).number }
    ensures values { values.new ≡ (last_scan_peak_at_called state.now values.old).values }
{
    let refusal = judge(state, values.len() == answering::PLACE_VALUES);
    if refusal != 0 {
        return refusal;
    }
    answering::tell_position(values, fine_words::load(state).last_scan_peak_at())
}

// Reports the origin of the last scan.
#[unsafe(no_mangle)]
pub extern "C" fn tmv_fine_last_scan_origin(state: &[u64], values: &mut [u64]) -> u32
    ensures number { result ≡ (last_scan_origin_called state.now values.old).number }
    ensures values { values.new ≡ (last_scan_origin_called state.now values.old).values }
{
    let refusal = judge(state, values.len() == words::ONE_VALUE);
    if refusal != 0 {
        return refusal;
    }
    answering::tell_samples(values, fine_words::load(state).last_scan_origin())
}

// Counts the scans since the making or the last reset.
#[unsafe(no_mangle)]
pub extern "C" fn tmv_fine_scans(state: &[u64], values: &mut [u64]) -> u32
    ensures number { result ≡ (scans_called state.now values.old).number }
    ensures values { values.new ≡ (scans_called state.now values.old).values }
{
    let refusal = judge(state, values.len() == words::ONE_VALUE);
    if refusal != 0 {
        return refusal;
    }
    words::tell_count(values, fine_words::load(state).scans())
}
