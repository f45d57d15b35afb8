// What a scan of the wall panel's profile (request j) reports, on the words that a host lends. The profile's other calls are in crate scan_panel_face.
#![tactic(auto)]

ghost use Rattle.std.specs.Prelude.{◌≡◌};
ghost use Rattle.scan_panel_reports_face.specs.Calls.{panel_bin_samples_called, panel_ceiling_samples_called, panel_frames_called, panel_correlation_called, panel_region_called, panel_beyond_ceiling_called, panel_finished_called, panel_exhausted_called};

use scan_panel_calls::reports;
use scan_panel_face::judge;
use scan_words::{answering, loading};

// One bin in native samples.
#[unsafe(no_mangle)]
pub extern "C" fn tmv_panel_bin_samples(state: &[u64], values: &mut [u64]) -> u32
    ensures number { result ≡ (panel_bin_samples_called state.now values.old).number }
    ensures values { values.new ≡ (panel_bin_samples_called state.now values.old).values }
{
    let refusal = judge(state, values.len() == words::ONE_VALUE);
    if refusal != 0 {
        return refusal;
    }
    answering::tell_samples(values, reports::bin_samples(loading::load(state)))
}

// The ceiling in native samples.
#[unsafe(no_mangle)]
pub extern "C" fn tmv_panel_ceiling_samples(state: &[u64], values: &mut [u64]) -> u32
    ensures number { result ≡ (panel_ceiling_samples_called state.now values.old).number }
    ensures values { values.new ≡ (panel_ceiling_samples_called state.now values.old).values }
{
    let refusal = judge(state, values.len() == words::ONE_VALUE);
    if refusal != 0 {
        return refusal;
    }
    answering::tell_samples(values, reports::ceiling_samples(loading::load(state)))
}

// The frames counted.
#[unsafe(no_mangle)]
pub extern "C" fn tmv_panel_frames(state: &[u64], values: &mut [u64]) -> u32
    ensures number { result ≡ (panel_frames_called state.now values.old).number }
    ensures values { values.new ≡ (panel_frames_called state.now values.old).values }
{
    let refusal = judge(state, values.len() == words::ONE_VALUE);
    if refusal != 0 {
        return refusal;
    }
    words::tell_count(values, reports::frames(loading::load(state)))
}

// The region's averaged correlation as f32, and before there is one the last frame's peak.
#[unsafe(no_mangle)]
pub extern "C" fn tmv_panel_correlation(state: &[u64], values: &mut [u64]) -> u32
    ensures number { result ≡ (panel_correlation_called state.now values.old).number }
    ensures values { values.new ≡ (panel_correlation_called state.now values.old).values }
{
    let refusal = judge(state, values.len() == words::ONE_VALUE);
    if refusal != 0 {
        return refusal;
    }
    answering::tell_level(
        values,
        loading::level_pattern(state),
        reports::correlation(loading::load(state)),
    )
}

// The region: 16 none, 17 one (delay, correlation as f64).
#[unsafe(no_mangle)]
pub extern "C" fn tmv_panel_region(state: &[u64], values: &mut [u64]) -> u32
    ensures number { result ≡ (panel_region_called state.now values.old).number }
    ensures values { values.new ≡ (panel_region_called state.now values.old).values }
{
    let refusal = judge(state, values.len() == answering::REGION_VALUES);
    if refusal != 0 {
        return refusal;
    }
    answering::tell_region(values, state[21], reports::region(loading::load(state)))
}

// Whether a peak stood at the ceiling: 16 no, 17 yes, as of the flags below.
#[unsafe(no_mangle)]
pub extern "C" fn tmv_panel_beyond_ceiling(state: &[u64]) -> u32
    ensures { result ≡ (panel_beyond_ceiling_called state.now).number }
{
    let refusal = judge(state, true);
    if refusal != 0 {
        return refusal;
    }
    words::flag_number(reports::beyond_ceiling(loading::load(state)))
}

// Whether the scan found a region or gave up.
#[unsafe(no_mangle)]
pub extern "C" fn tmv_panel_finished(state: &[u64]) -> u32
    ensures { result ≡ (panel_finished_called state.now).number }
{
    let refusal = judge(state, true);
    if refusal != 0 {
        return refusal;
    }
    words::flag_number(reports::finished(loading::load(state)))
}

// Whether the scan gave up.
#[unsafe(no_mangle)]
pub extern "C" fn tmv_panel_exhausted(state: &[u64]) -> u32
    ensures { result ≡ (panel_exhausted_called state.now).number }
{
    let refusal = judge(state, true);
    if refusal != 0 {
        return refusal;
    }
    words::flag_number(reports::exhausted(loading::load(state)))
}
