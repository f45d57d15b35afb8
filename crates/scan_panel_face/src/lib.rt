// The calls of the wall panel's profile (request j) on the words that a host lends: the scan's own layout, crates/scan_words/specs/Layout.antt. All lengths but the far envelope's are the scan's.
// The reports are in crate scan_panel_reports_face.
#![tactic(auto)]

ghost use Rattle.std.specs.Prelude.{◌≡◌};
ghost use Rattle.scan.specs.Bins.{geometry_of, envelope_len};
ghost use Rattle.scan_panel.specs.Panel.{panel_slack};
ghost use Rattle.scan_face.specs.Calls.{history_given, history_left, buffers_given, buffers_left};
ghost use Rattle.scan_panel_face.specs.Calls.{panel_length_for, judged_panel, panel_new_called, panel_reset_called, panel_rearm_called, panel_discard_near_called, panel_push_far_called, panel_push_near_called, panel_push_near_run_called, panel_observe_called};

use scan_handover_face::tell_run;
use scan_panel_calls::profile;
use scan_words::{answering, loading, storing};

// Judges the length of a state, the settings that stand in it, and the length of the values.
pub fn judge(state: &[u64], values_fit: bool) -> u32
    ensures { result ≡ judged_panel state.now values_fit }
{
    if state.len() != scan_words::WORDS {
        return answers::WRONG_LENGTH as u32;
    }
    face::setting_first(
        profile::in_table(words::half(state[0], 0), words::half(state[1], 0)),
        values_fit,
    )
}

// The far envelope's length; 0 where the profile does not allow the settings.
#[unsafe(no_mangle)]
pub extern "C" fn tmv_panel_envelope_len(rate: u32, ceiling: u32) -> u64
    ensures { result ≡ panel_length_for rate ceiling (envelope_len panel_slack (geometry_of rate ceiling)) }
{
    if profile::in_table(rate, ceiling) {
        return scan_calls::rules::envelope_len(
            scan_panel_calls::SLACK,
            scan_calls::rules::geometry_of(rate, ceiling),
        );
    }
    0
}

// A new scan.
#[unsafe(no_mangle)]
pub extern "C" fn tmv_panel_new(
    state: &mut [u64],
    envelope: &mut [f32],
    lag_sums: &mut [f64],
    rate: u32,
    ceiling: u32,
) -> u32
    ensures number { result ≡ (panel_new_called state.old (history_given envelope lag_sums) rate ceiling).number }
    ensures words { state.new ≡ (panel_new_called state.old (history_given envelope lag_sums) rate ceiling).words }
    ensures history { history_left envelope lag_sums ≡ (panel_new_called state.old (history_given envelope lag_sums) rate ceiling).buffers }
{
    let refusal = face::setting_first(
        profile::in_table(rate, ceiling),
        state.len() == scan_words::WORDS,
    );
    if refusal != 0 {
        return refusal;
    }
    let changed = scan_panel_calls::new(rate, ceiling, envelope, lag_sums);
    answering::settle_change(state, changed)
}

// The scan as it was made.
#[unsafe(no_mangle)]
pub extern "C" fn tmv_panel_reset(
    state: &mut [u64],
    envelope: &mut [f32],
    lag_sums: &mut [f64],
) -> u32
    ensures number { result ≡ (panel_reset_called state.old (history_given envelope lag_sums)).number }
    ensures words { state.new ≡ (panel_reset_called state.old (history_given envelope lag_sums)).words }
    ensures history { history_left envelope lag_sums ≡ (panel_reset_called state.old (history_given envelope lag_sums)).buffers }
{
    let refusal = judge(state, true);
    if refusal != 0 {
        return refusal;
    }
    let changed = scan_panel_calls::reset(loading::load(state), envelope, lag_sums);
    answering::settle_change(state, changed)
}

// The search begins anew, on the far history as it stands.
#[unsafe(no_mangle)]
pub extern "C" fn tmv_panel_rearm(state: &mut [u64], lag_sums: &mut [f64]) -> u32
    ensures number { result ≡ (panel_rearm_called state.old lag_sums.old).number }
    ensures words { state.new ≡ (panel_rearm_called state.old lag_sums.old).words }
    ensures sums { lag_sums.new ≡ (panel_rearm_called state.old lag_sums.old).buffers }
{
    let refusal = judge(state, true);
    if refusal != 0 {
        return refusal;
    }
    let changed = scan_panel_calls::rearm(loading::load(state), lag_sums);
    answering::settle_change(state, changed)
}

// The near frame under way is dropped, and the frames banked.
#[unsafe(no_mangle)]
pub extern "C" fn tmv_panel_discard_near(state: &mut [u64], lag_sums: &mut [f64]) -> u32
    ensures number { result ≡ (panel_discard_near_called state.old lag_sums.old).number }
    ensures words { state.new ≡ (panel_discard_near_called state.old lag_sums.old).words }
    ensures sums { lag_sums.new ≡ (panel_discard_near_called state.old lag_sums.old).buffers }
{
    let refusal = judge(state, true);
    if refusal != 0 {
        return refusal;
    }
    let changed = scan_panel_calls::discard_near(loading::load(state), lag_sums);
    answering::settle_change(state, changed)
}

// Far samples, in played order.
#[unsafe(no_mangle)]
pub extern "C" fn tmv_panel_push_far(
    state: &mut [u64],
    envelope: &mut [f32],
    samples: &[f32],
) -> u32
    ensures number { result ≡ (panel_push_far_called state.old envelope.old samples.now).number }
    ensures words { state.new ≡ (panel_push_far_called state.old envelope.old samples.now).words }
    ensures envelope { envelope.new ≡ (panel_push_far_called state.old envelope.old samples.now).buffers }
{
    let refusal = judge(state, true);
    if refusal != 0 {
        return refusal;
    }
    let changed = scan_panel_calls::push_far(loading::load(state), envelope, samples);
    answering::settle_change(state, changed)
}

// One near sample with its index: 16 ignored, 17 dropped, 18 taken, 19 the frame is full.
#[unsafe(no_mangle)]
pub extern "C" fn tmv_panel_push_near(
    state: &mut [u64],
    levels: &mut [f32],
    sample: f32,
    index: u64,
) -> u32
    ensures number { result ≡ (panel_push_near_called state.old levels.old sample index).number }
    ensures words { state.new ≡ (panel_push_near_called state.old levels.old sample index).words }
    ensures levels { levels.new ≡ (panel_push_near_called state.old levels.old sample index).buffers }
{
    let refusal = judge(state, true);
    if refusal != 0 {
        return refusal;
    }
    let took = scan_panel_calls::push_near(loading::load(state), levels, sample, index);
    let next = took.scan;
    let answer = took.answer;
    storing::settle(state, answering::taking_number(answer), next)
}

// A run of near samples with its first index: 16 ignored, 18 taken, 19 the frame is full; values[0] is how many of them.
#[unsafe(no_mangle)]
pub extern "C" fn tmv_panel_push_near_run(
    state: &mut [u64],
    levels: &mut [f32],
    samples: &[f32],
    first: u64,
    values: &mut [u64],
) -> u32
    ensures number { result ≡ (panel_push_near_run_called state.old levels.old samples.now first values.old).number }
    ensures words { state.new ≡ (panel_push_near_run_called state.old levels.old samples.now first values.old).words }
    ensures levels { levels.new ≡ (panel_push_near_run_called state.old levels.old samples.now first values.old).buffers }
    ensures values { values.new ≡ (panel_push_near_run_called state.old levels.old samples.now first values.old).values }
{
    let refusal = judge(state, values.len() == words::ONE_VALUE);
    if refusal != 0 {
        return refusal;
    }
    let handed = scan_panel_calls::push_near_run(loading::load(state), levels, samples, first);
    let next = handed.scan;
    let answer = handed.answer;
    storing::settle(state, tell_run(values, answer), next)
}

// A full frame is scored: 16 uncovered, 17 ahead, 18 quiet, 19 flat, 20 banked (its peak as f32), 21 weak, 22 ceiling, 23 crowded, 24 a region (delay, correlation as f64).
#[unsafe(no_mangle)]
pub extern "C" fn tmv_panel_observe(
    state: &mut [u64],
    envelope: &[f32],
    levels: &[f32],
    window: &mut [f32],
    prefix: &mut [f64],
    squares: &mut [f64],
    scores: &mut [f64],
    lag_sums: &mut [f64],
    values: &mut [u64],
) -> u32
    ensures number { result ≡ (panel_observe_called state.old (buffers_given envelope levels window prefix squares scores lag_sums) values.old).number }
    ensures words { state.new ≡ (panel_observe_called state.old (buffers_given envelope levels window prefix squares scores lag_sums) values.old).words }
    ensures buffers { buffers_left envelope levels window prefix squares scores lag_sums ≡ (panel_observe_called state.old (buffers_given envelope levels window prefix squares scores lag_sums) values.old).buffers }
    ensures values { values.new ≡ (panel_observe_called state.old (buffers_given envelope levels window prefix squares scores lag_sums) values.old).values }
{
    let refusal = judge(state, values.len() == answering::FRAME_VALUES);
    if refusal != 0 {
        return refusal;
    }
    let scored = scan_panel_calls::observe(
        loading::load(state),
        envelope,
        levels,
        window,
        prefix,
        squares,
        scores,
        lag_sums,
    );
    let next = scored.scan;
    let answer = scored.answer;
    storing::settle(state, answering::tell_scoring(values, answer), next)
}
