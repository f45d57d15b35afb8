// The scan's calls. crates/scan_words/specs/Layout.antt says where each field of its state stands.
#![tactic(auto)]

ghost use Rattle.std.specs.Prelude.{◌≡◌};
ghost use Rattle.scan.specs.Bins.{full_slack, geometry_of, envelope_len, near_len, window_len, prefix_len, lags};
ghost use Rattle.scan_words.specs.Layout.{scan_words};
ghost use Rattle.scan_face.specs.Calls.{length_for, judged_scan, history_given, history_left, buffers_given, buffers_left, new_called, reset_called, rearm_called, discard_near_called, push_far_called, push_near_called, observe_called, bin_samples_called, ceiling_samples_called, frames_called, correlation_called, region_called, beyond_ceiling_called, finished_called, exhausted_called};

use scan_words::{answering, loading, storing};

// scan_handover_face has this function too: the contract of each cites the definition of its own face.
fn judge(state: &[u64], values_fit: bool) -> u32
    ensures { result ≡ judged_scan state.now values_fit }
{
    if state.len() != scan_words::WORDS {
        return answers::WRONG_LENGTH as u32;
    }
    face::setting_first(
        scan_calls::rules::in_table(words::half(state[0], 0), words::half(state[1], 0)),
        values_fit,
    )
}

// ---- lengths

// How many words a scan's state has.
#[unsafe(no_mangle)]
pub extern "C" fn tmv_scan_words() -> u64
    ensures { result ≡ scan_words }
{
    scan_words::WORDS as u64
}

// The far envelope's length; 0 where rate or ceiling is outside the table, as of the lengths below.
#[unsafe(no_mangle)]
pub extern "C" fn tmv_scan_envelope_len(rate: u32, ceiling: u32) -> u64
    ensures { result ≡ length_for rate ceiling (envelope_len full_slack (geometry_of rate ceiling)) }
{
    if scan_calls::rules::in_table(rate, ceiling) {
        return scan_calls::rules::envelope_len(
            scan_calls::SLACK,
            scan_calls::rules::geometry_of(rate, ceiling),
        );
    }
    0
}

// The near levels' length.
#[unsafe(no_mangle)]
pub extern "C" fn tmv_scan_levels_len(rate: u32, ceiling: u32) -> u64
    ensures { result ≡ length_for rate ceiling (near_len (geometry_of rate ceiling)) }
{
    if scan_calls::rules::in_table(rate, ceiling) {
        return scan_calls::rules::geometry_of(rate, ceiling).frame;
    }
    0
}

// The window's length.
#[unsafe(no_mangle)]
pub extern "C" fn tmv_scan_window_len(rate: u32, ceiling: u32) -> u64
    ensures { result ≡ length_for rate ceiling (window_len (geometry_of rate ceiling)) }
{
    if scan_calls::rules::in_table(rate, ceiling) {
        let g = scan_calls::rules::geometry_of(rate, ceiling);
        return g.frame + g.span;
    }
    0
}

// The length of each of the two prefix buffers.
#[unsafe(no_mangle)]
pub extern "C" fn tmv_scan_prefix_len(rate: u32, ceiling: u32) -> u64
    ensures { result ≡ length_for rate ceiling (prefix_len (geometry_of rate ceiling)) }
{
    if scan_calls::rules::in_table(rate, ceiling) {
        let g = scan_calls::rules::geometry_of(rate, ceiling);
        return g.frame + g.span + 1;
    }
    0
}

// The length of the scores and of the lag sums.
#[unsafe(no_mangle)]
pub extern "C" fn tmv_scan_lags_len(rate: u32, ceiling: u32) -> u64
    ensures { result ≡ length_for rate ceiling (lags (geometry_of rate ceiling)) }
{
    if scan_calls::rules::in_table(rate, ceiling) {
        return scan_calls::rules::lags(scan_calls::rules::geometry_of(rate, ceiling));
    }
    0
}

// ---- calls that change the state

// A new scan.
#[unsafe(no_mangle)]
pub extern "C" fn tmv_scan_new(
    state: &mut [u64],
    envelope: &mut [f32],
    lag_sums: &mut [f64],
    rate: u32,
    ceiling: u32,
) -> u32
    ensures number { result ≡ (new_called state.old (history_given envelope lag_sums) rate ceiling).number }
    ensures words { state.new ≡ (new_called state.old (history_given envelope lag_sums) rate ceiling).words }
    ensures history { history_left envelope lag_sums ≡ (new_called state.old (history_given envelope lag_sums) rate ceiling).buffers }
{
    let refusal = face::setting_first(
        scan_calls::rules::in_table(rate, ceiling),
        state.len() == scan_words::WORDS,
    );
    if refusal != 0 {
        return refusal;
    }
    let changed = scan_calls::new(rate, ceiling, envelope, lag_sums);
    answering::settle_change(state, changed)
}

// The scan as it was made.
#[unsafe(no_mangle)]
pub extern "C" fn tmv_scan_reset(
    state: &mut [u64],
    envelope: &mut [f32],
    lag_sums: &mut [f64],
) -> u32
    ensures number { result ≡ (reset_called state.old (history_given envelope lag_sums)).number }
    ensures words { state.new ≡ (reset_called state.old (history_given envelope lag_sums)).words }
    ensures history { history_left envelope lag_sums ≡ (reset_called state.old (history_given envelope lag_sums)).buffers }
{
    let refusal = judge(state, true);
    if refusal != 0 {
        return refusal;
    }
    let changed = scan_calls::reset(loading::load(state), envelope, lag_sums);
    answering::settle_change(state, changed)
}

// The search begins anew, on the far history as it stands.
#[unsafe(no_mangle)]
pub extern "C" fn tmv_scan_rearm(state: &mut [u64], lag_sums: &mut [f64]) -> u32
    ensures number { result ≡ (rearm_called state.old lag_sums.old).number }
    ensures words { state.new ≡ (rearm_called state.old lag_sums.old).words }
    ensures sums { lag_sums.new ≡ (rearm_called state.old lag_sums.old).buffers }
{
    let refusal = judge(state, true);
    if refusal != 0 {
        return refusal;
    }
    let changed = scan_calls::rearm(loading::load(state), lag_sums);
    answering::settle_change(state, changed)
}

// The near frame under way is dropped, and the frames banked.
#[unsafe(no_mangle)]
pub extern "C" fn tmv_scan_discard_near(state: &mut [u64], lag_sums: &mut [f64]) -> u32
    ensures number { result ≡ (discard_near_called state.old lag_sums.old).number }
    ensures words { state.new ≡ (discard_near_called state.old lag_sums.old).words }
    ensures sums { lag_sums.new ≡ (discard_near_called state.old lag_sums.old).buffers }
{
    let refusal = judge(state, true);
    if refusal != 0 {
        return refusal;
    }
    let changed = scan_calls::discard_near(loading::load(state), lag_sums);
    answering::settle_change(state, changed)
}

// Far samples, in played order.
#[unsafe(no_mangle)]
pub extern "C" fn tmv_scan_push_far(state: &mut [u64], envelope: &mut [f32], samples: &[f32]) -> u32
    ensures number { result ≡ (push_far_called state.old envelope.old samples.now).number }
    ensures words { state.new ≡ (push_far_called state.old envelope.old samples.now).words }
    ensures envelope { envelope.new ≡ (push_far_called state.old envelope.old samples.now).buffers }
{
    let refusal = judge(state, true);
    if refusal != 0 {
        return refusal;
    }
    let changed = scan_push::push_far(loading::load(state), envelope, samples);
    answering::settle_change(state, changed)
}

// One near sample with its index: 16 ignored, 17 dropped, 18 taken, 19 the frame is full.
#[unsafe(no_mangle)]
pub extern "C" fn tmv_scan_push_near(
    state: &mut [u64],
    levels: &mut [f32],
    sample: f32,
    index: u64,
) -> u32
    ensures number { result ≡ (push_near_called state.old levels.old sample index).number }
    ensures words { state.new ≡ (push_near_called state.old levels.old sample index).words }
    ensures levels { levels.new ≡ (push_near_called state.old levels.old sample index).buffers }
{
    let refusal = judge(state, true);
    if refusal != 0 {
        return refusal;
    }
    let took = scan_push::push_near(loading::load(state), levels, sample, index);
    let next = took.scan;
    let answer = took.answer;
    storing::settle(state, answering::taking_number(answer), next)
}

// A full frame is scored: 16 uncovered, 17 ahead, 18 quiet, 19 flat, 20 banked (its peak as f32), 21 weak, 22 ceiling, 23 crowded, 24 a region (delay, correlation as f64).
#[unsafe(no_mangle)]
pub extern "C" fn tmv_scan_observe(
    state: &mut [u64],
    envelope: &[f32],
    levels: &[f32],
    window: &mut [f32],
    prefix: &mut [f64],
    squares: &mut [f64],
    scores: &mut [f64],
    lag_sums: &mut [f64],
    values: &mut [u64],
) -> u32
    ensures number { result ≡ (observe_called state.old (buffers_given envelope levels window prefix squares scores lag_sums) values.old).number }
    ensures words { state.new ≡ (observe_called state.old (buffers_given envelope levels window prefix squares scores lag_sums) values.old).words }
    ensures buffers { buffers_left envelope levels window prefix squares scores lag_sums ≡ (observe_called state.old (buffers_given envelope levels window prefix squares scores lag_sums) values.old).buffers }
    ensures values { values.new ≡ (observe_called state.old (buffers_given envelope levels window prefix squares scores lag_sums) values.old).values }
{
    let refusal = judge(state, values.len() == answering::FRAME_VALUES);
    if refusal != 0 {
        return refusal;
    }
    let scored = scan_score::observe(
        loading::load(state),
        envelope,
        levels,
        window,
        prefix,
        squares,
        scores,
        lag_sums,
    );
    let next = scored.scan;
    let answer = scored.answer;
    storing::settle(state, answering::tell_scoring(values, answer), next)
}

// ---- reports

// One bin in native samples.
#[unsafe(no_mangle)]
pub extern "C" fn tmv_scan_bin_samples(state: &[u64], values: &mut [u64]) -> u32
    ensures number { result ≡ (bin_samples_called state.now values.old).number }
    ensures values { values.new ≡ (bin_samples_called state.now values.old).values }
{
    let refusal = judge(state, values.len() == words::ONE_VALUE);
    if refusal != 0 {
        return refusal;
    }
    answering::tell_samples(
        values,
        scan_calls::reports::bin_samples(loading::load(state)),
    )
}

// The ceiling in native samples.
#[unsafe(no_mangle)]
pub extern "C" fn tmv_scan_ceiling_samples(state: &[u64], values: &mut [u64]) -> u32
    ensures number { result ≡ (ceiling_samples_called state.now values.old).number }
    ensures values { values.new ≡ (ceiling_samples_called state.now values.old).values }
{
    let refusal = judge(state, values.len() == words::ONE_VALUE);
    if refusal != 0 {
        return refusal;
    }
    answering::tell_samples(
        values,
        scan_calls::reports::ceiling_samples(loading::load(state)),
    )
}

// The frames counted.
#[unsafe(no_mangle)]
pub extern "C" fn tmv_scan_frames(state: &[u64], values: &mut [u64]) -> u32
    ensures number { result ≡ (frames_called state.now values.old).number }
    ensures values { values.new ≡ (frames_called state.now values.old).values }
{
    let refusal = judge(state, values.len() == words::ONE_VALUE);
    if refusal != 0 {
        return refusal;
    }
    words::tell_count(values, scan_calls::reports::frames(loading::load(state)))
}

// The region's averaged correlation as f32, and before there is one the last frame's peak.
#[unsafe(no_mangle)]
pub extern "C" fn tmv_scan_correlation(state: &[u64], values: &mut [u64]) -> u32
    ensures number { result ≡ (correlation_called state.now values.old).number }
    ensures values { values.new ≡ (correlation_called state.now values.old).values }
{
    let refusal = judge(state, values.len() == words::ONE_VALUE);
    if refusal != 0 {
        return refusal;
    }
    answering::tell_level(
        values,
        loading::level_pattern(state),
        scan_calls::reports::correlation(loading::load(state)),
    )
}

// The region: 16 none, 17 one (delay, correlation as f64).
#[unsafe(no_mangle)]
pub extern "C" fn tmv_scan_region(state: &[u64], values: &mut [u64]) -> u32
    ensures number { result ≡ (region_called state.now values.old).number }
    ensures values { values.new ≡ (region_called state.now values.old).values }
{
    let refusal = judge(state, values.len() == answering::REGION_VALUES);
    if refusal != 0 {
        return refusal;
    }
    answering::tell_region(
        values,
        state[21],
        scan_calls::reports::region(loading::load(state)),
    )
}

// Whether a peak stood at the ceiling: 16 no, 17 yes, as of the flags below.
#[unsafe(no_mangle)]
pub extern "C" fn tmv_scan_beyond_ceiling(state: &[u64]) -> u32
    ensures { result ≡ (beyond_ceiling_called state.now).number }
{
    let refusal = judge(state, true);
    if refusal != 0 {
        return refusal;
    }
    words::flag_number(scan_calls::reports::beyond_ceiling(loading::load(state)))
}

// Whether the scan found a region or gave up.
#[unsafe(no_mangle)]
pub extern "C" fn tmv_scan_finished(state: &[u64]) -> u32
    ensures { result ≡ (finished_called state.now).number }
{
    let refusal = judge(state, true);
    if refusal != 0 {
        return refusal;
    }
    words::flag_number(scan_calls::reports::finished(loading::load(state)))
}

// Whether the scan gave up.
#[unsafe(no_mangle)]
pub extern "C" fn tmv_scan_exhausted(state: &[u64]) -> u32
    ensures { result ≡ (exhausted_called state.now).number }
{
    let refusal = judge(state, true);
    if refusal != 0 {
        return refusal;
    }
    words::flag_number(scan_calls::reports::exhausted(loading::load(state)))
}
