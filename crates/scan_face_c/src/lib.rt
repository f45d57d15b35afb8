// The scan's calls for C: each hands the call of crate scan_face on, whose contract it has. A static library exports its own functions alone, and other crates stand on that one, so that it is none.
#![tactic(auto)]

ghost use Rattle.std.specs.Prelude.{◌≡◌};
ghost use Rattle.scan.specs.Bins.{full_slack, geometry_of, envelope_len, near_len, window_len, prefix_len, lags};
ghost use Rattle.scan_words.specs.Layout.{scan_words};
ghost use Rattle.scan_face.specs.Calls.{length_for, history_given, history_left, buffers_given, buffers_left, new_called, reset_called, rearm_called, discard_near_called, push_far_called, push_near_called, observe_called, bin_samples_called, ceiling_samples_called, frames_called, correlation_called, region_called, beyond_ceiling_called, finished_called, exhausted_called};

// How many words a scan's state has.
#[unsafe(no_mangle)]
pub extern "C" fn tmv_scan_words() -> u64
    ensures { result ≡ scan_words }
{
    scan_face::tmv_scan_words()
}

// The far envelope's length; 0 where rate or ceiling is outside the table, as of the lengths below.
#[unsafe(no_mangle)]
pub extern "C" fn tmv_scan_envelope_len(rate: u32, ceiling: u32) -> u64
    ensures { result ≡ length_for rate ceiling (envelope_len full_slack (geometry_of rate ceiling)) }
{
    scan_face::tmv_scan_envelope_len(rate, ceiling)
}

// The near levels' length.
#[unsafe(no_mangle)]
pub extern "C" fn tmv_scan_levels_len(rate: u32, ceiling: u32) -> u64
    ensures { result ≡ length_for rate ceiling (near_len (geometry_of rate ceiling)) }
{
    scan_face::tmv_scan_levels_len(rate, ceiling)
}

// The window's length.
#[unsafe(no_mangle)]
pub extern "C" fn tmv_scan_window_len(rate: u32, ceiling: u32) -> u64
    ensures { result ≡ length_for rate ceiling (window_len (geometry_of rate ceiling)) }
{
    scan_face::tmv_scan_window_len(rate, ceiling)
}

// The length of each of the two prefix buffers.
#[unsafe(no_mangle)]
pub extern "C" fn tmv_scan_prefix_len(rate: u32, ceiling: u32) -> u64
    ensures { result ≡ length_for rate ceiling (prefix_len (geometry_of rate ceiling)) }
{
    scan_face::tmv_scan_prefix_len(rate, ceiling)
}

// The length of the scores and of the lag sums.
#[unsafe(no_mangle)]
pub extern "C" fn tmv_scan_lags_len(rate: u32, ceiling: u32) -> u64
    ensures { result ≡ length_for rate ceiling (lags (geometry_of rate ceiling)) }
{
    scan_face::tmv_scan_lags_len(rate, ceiling)
}

// A new scan.
#[unsafe(no_mangle)]
pub extern "C" fn tmv_scan_new(
    state: &mut [u64],
    envelope: &mut [f32],
    lag_sums: &mut [f64],
    rate: u32,
    ceiling: u32,
) -> u32
    ensures number { result ≡ (new_called state.old (history_given envelope lag_sums) rate ceiling).number }
    ensures words { state.new ≡ (new_called state.old (history_given envelope lag_sums) rate ceiling).words }
    ensures history { history_left envelope lag_sums ≡ (new_called state.old (history_given envelope lag_sums) rate ceiling).buffers }
{
    scan_face::tmv_scan_new(state, envelope, lag_sums, rate, ceiling)
}

// The scan as it was made.
#[unsafe(no_mangle)]
pub extern "C" fn tmv_scan_reset(
    state: &mut [u64],
    envelope: &mut [f32],
    lag_sums: &mut [f64],
) -> u32
    ensures number { result ≡ (reset_called state.old (history_given envelope lag_sums)).number }
    ensures words { state.new ≡ (reset_called state.old (history_given envelope lag_sums)).words }
    ensures history { history_left envelope lag_sums ≡ (reset_called state.old (history_given envelope lag_sums)).buffers }
{
    scan_face::tmv_scan_reset(state, envelope, lag_sums)
}

// The search begins anew, on the far history as it stands.
#[unsafe(no_mangle)]
pub extern "C" fn tmv_scan_rearm(state: &mut [u64], lag_sums: &mut [f64]) -> u32
    ensures number { result ≡ (rearm_called state.old lag_sums.old).number }
    ensures words { state.new ≡ (rearm_called state.old lag_sums.old).words }
    ensures sums { lag_sums.new ≡ (rearm_called state.old lag_sums.old).buffers }
{
    scan_face::tmv_scan_rearm(state, lag_sums)
}

// The near frame under way is dropped, and the frames banked.
#[unsafe(no_mangle)]
pub extern "C" fn tmv_scan_discard_near(state: &mut [u64], lag_sums: &mut [f64]) -> u32
    ensures number { result ≡ (discard_near_called state.old lag_sums.old).number }
    ensures words { state.new ≡ (discard_near_called state.old lag_sums.old).words }
    ensures sums { lag_sums.new ≡ (discard_near_called state.old lag_sums.old).buffers }
{
    scan_face::tmv_scan_discard_near(state, lag_sums)
}

// Far samples, in played order.
#[unsafe(no_mangle)]
pub extern "C" fn tmv_scan_push_far(state: &mut [u64], envelope: &mut [f32], samples: &[f32]) -> u32
    ensures number { result ≡ (push_far_called state.old envelope.old samples.now).number }
    ensures words { state.new ≡ (push_far_called state.old envelope.old samples.now).words }
    ensures envelope { envelope.new ≡ (push_far_called state.old envelope.old samples.now).buffers }
{
    scan_face::tmv_scan_push_far(state, envelope, samples)
}

// One near sample with its index: 16 ignored, 17 dropped, 18 taken, 19 the frame is full.
#[unsafe(no_mangle)]
pub extern "C" fn tmv_scan_push_near(
    state: &mut [u64],
    levels: &mut [f32],
    sample: f32,
    index: u64,
) -> u32
    ensures number { result ≡ (push_near_called state.old levels.old sample index).number }
    ensures words { state.new ≡ (push_near_called state.old levels.old sample index).words }
    ensures levels { levels.new ≡ (push_near_called state.old levels.old sample index).buffers }
{
    scan_face::tmv_scan_push_near(state, levels, sample, index)
}

// A full frame is scored: 16 uncovered, 17 ahead, 18 quiet, 19 flat, 20 banked (its peak as f32), 21 weak, 22 ceiling, 23 crowded, 24 a region (delay, correlation as f64).
#[unsafe(no_mangle)]
pub extern "C" fn tmv_scan_observe(
    state: &mut [u64],
    envelope: &[f32],
    levels: &[f32],
    window: &mut [f32],
    prefix: &mut [f64],
    squares: &mut [f64],
    scores: &mut [f64],
    lag_sums: &mut [f64],
    values: &mut [u64],
) -> u32
    ensures number { result ≡ (observe_called state.old (buffers_given envelope levels window prefix squares scores lag_sums) values.old).number }
    ensures words { state.new ≡ (observe_called state.old (buffers_given envelope levels window prefix squares scores lag_sums) values.old).words }
    ensures buffers { buffers_left envelope levels window prefix squares scores lag_sums ≡ (observe_called state.old (buffers_given envelope levels window prefix squares scores lag_sums) values.old).buffers }
    ensures values { values.new ≡ (observe_called state.old (buffers_given envelope levels window prefix squares scores lag_sums) values.old).values }
{
    scan_face::tmv_scan_observe(
        state, envelope, levels, window, prefix, squares, scores, lag_sums, values,
    )
}

// One bin in native samples.
#[unsafe(no_mangle)]
pub extern "C" fn tmv_scan_bin_samples(state: &[u64], values: &mut [u64]) -> u32
    ensures number { result ≡ (bin_samples_called state.now values.old).number }
    ensures values { values.new ≡ (bin_samples_called state.now values.old).values }
{
    scan_face::tmv_scan_bin_samples(state, values)
}

// The ceiling in native samples.
#[unsafe(no_mangle)]
pub extern "C" fn tmv_scan_ceiling_samples(state: &[u64], values: &mut [u64]) -> u32
    ensures number { result ≡ (ceiling_samples_called state.now values.old).number }
    ensures values { values.new ≡ (ceiling_samples_called state.now values.old).values }
{
    scan_face::tmv_scan_ceiling_samples(state, values)
}

// The frames counted.
#[unsafe(no_mangle)]
pub extern "C" fn tmv_scan_frames(state: &[u64], values: &mut [u64]) -> u32
    ensures number { result ≡ (frames_called state.now values.old).number }
    ensures values { values.new ≡ (frames_called state.now values.old).values }
{
    scan_face::tmv_scan_frames(state, values)
}

// The region's averaged correlation as f32, and before there is one the last frame's peak.
#[unsafe(no_mangle)]
pub extern "C" fn tmv_scan_correlation(state: &[u64], values: &mut [u64]) -> u32
    ensures number { result ≡ (correlation_called state.now values.old).number }
    ensures values { values.new ≡ (correlation_called state.now values.old).values }
{
    scan_face::tmv_scan_correlation(state, values)
}

// The region: 16 none, 17 one (delay, correlation as f64).
#[unsafe(no_mangle)]
pub extern "C" fn tmv_scan_region(state: &[u64], values: &mut [u64]) -> u32
    ensures number { result ≡ (region_called state.now values.old).number }
    ensures values { values.new ≡ (region_called state.now values.old).values }
{
    scan_face::tmv_scan_region(state, values)
}

// Whether a peak stood at the ceiling: 16 no, 17 yes, as of the flags below.
#[unsafe(no_mangle)]
pub extern "C" fn tmv_scan_beyond_ceiling(state: &[u64]) -> u32
    ensures { result ≡ (beyond_ceiling_called state.now).number }
{
    scan_face::tmv_scan_beyond_ceiling(state)
}

// Whether the scan found a region or gave up.
#[unsafe(no_mangle)]
pub extern "C" fn tmv_scan_finished(state: &[u64]) -> u32
    ensures { result ≡ (finished_called state.now).number }
{
    scan_face::tmv_scan_finished(state)
}

// Whether the scan gave up.
#[unsafe(no_mangle)]
pub extern "C" fn tmv_scan_exhausted(state: &[u64]) -> u32
    ensures { result ≡ (exhausted_called state.now).number }
{
    scan_face::tmv_scan_exhausted(state)
}
