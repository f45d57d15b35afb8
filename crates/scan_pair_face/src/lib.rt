// Two microphones, one loudspeaker (request n), on the words that a host lends. crates/scan_pair_words/specs/Layout.antt says where each field of the state stands; the lengths of
// the lent lists are the scan's. A channel number that is not 0 or 1 is refused with 11 before anything else is looked at.
#![tactic(auto)]

ghost use Rattle.std.specs.Prelude.{◌≡◌};
ghost use Rattle.scan_pair_words.specs.Layout.{pair_words};
ghost use Rattle.scan_pair_face.specs.Calls.{judged_pair, judged_on, history_given, history_left, buffers_given, buffers_left, new_called, reset_called, rearm_called, discard_near_called, push_far_called, push_near_called, push_near_run_called, observe_called, bin_samples_called, ceiling_samples_called, frames_called, correlation_called, region_called, beyond_ceiling_called, finished_called, exhausted_called};

use scan_handover_face::tell_run;
use scan_pair_words::{loading, storing};

// How many values a run is lent a list for.
const RUN_VALUES: usize = 1;

// The common part: 2 if the words are not so many, 1 if rate or ceiling is outside the table, 2 if the values do not fit.
fn judge(state: &[u64], values_fit: bool) -> u32
    ensures { result ≡ judged_pair state.now values_fit }
{
    if state.len() != scan_pair_words::WORDS {
        return answers::WRONG_LENGTH as u32;
    }
    let own = loading::words_of(state, 0);
    face::setting_first(
        scan_calls::rules::in_table(words::half(own[0], 0), words::half(own[1], 0)),
        values_fit,
    )
}

// 11 before all others.
fn judge_on(channel: u32, state: &[u64], values_fit: bool) -> u32
    ensures { result ≡ judged_on channel state.now values_fit }
{
    if channel >= 2 {
        return scan_pair::NO_SUCH_CHANNEL as u32;
    }
    judge(state, values_fit)
}

// How many words a pair's state has.
#[unsafe(no_mangle)]
pub extern "C" fn tmv_pair_words() -> u64
    ensures { result ≡ pair_words }
{
    scan_pair_words::WORDS as u64
}

// ---- both channels

// A new pair.
#[unsafe(no_mangle)]
pub extern "C" fn tmv_pair_new(
    state: &mut [u64],
    envelope: &mut [f32],
    first_lag_sums: &mut [f64],
    second_lag_sums: &mut [f64],
    rate: u32,
    ceiling: u32,
) -> u32
    ensures number { result ≡ (new_called state.old (history_given envelope first_lag_sums second_lag_sums) rate ceiling).number }
    ensures words { state.new ≡ (new_called state.old (history_given envelope first_lag_sums second_lag_sums) rate ceiling).words }
    ensures history { history_left envelope first_lag_sums second_lag_sums ≡ (new_called state.old (history_given envelope first_lag_sums second_lag_sums) rate ceiling).buffers }
{
    let refusal = face::setting_first(
        scan_calls::rules::in_table(rate, ceiling),
        state.len() == scan_pair_words::WORDS,
    );
    if refusal != 0 {
        return refusal;
    }
    let changed = scan_pair_calls::new(rate, ceiling, envelope, first_lag_sums, second_lag_sums);
    let next = changed.pair;
    let answer = changed.answer;
    storing::settle(state, words::change_number(answer), next)
}

// The pair as it was made, both channels at once.
#[unsafe(no_mangle)]
pub extern "C" fn tmv_pair_reset(
    state: &mut [u64],
    envelope: &mut [f32],
    first_lag_sums: &mut [f64],
    second_lag_sums: &mut [f64],
) -> u32
    ensures number { result ≡ (reset_called state.old (history_given envelope first_lag_sums second_lag_sums)).number }
    ensures words { state.new ≡ (reset_called state.old (history_given envelope first_lag_sums second_lag_sums)).words }
    ensures history { history_left envelope first_lag_sums second_lag_sums ≡ (reset_called state.old (history_given envelope first_lag_sums second_lag_sums)).buffers }
{
    let refusal = judge(state, true);
    if refusal != 0 {
        return refusal;
    }
    let changed = scan_pair_calls::reset(
        loading::load(state),
        envelope,
        first_lag_sums,
        second_lag_sums,
    );
    let next = changed.pair;
    let answer = changed.answer;
    storing::settle(state, words::change_number(answer), next)
}

// Far samples, in played order, for both channels.
#[unsafe(no_mangle)]
pub extern "C" fn tmv_pair_push_far(state: &mut [u64], envelope: &mut [f32], samples: &[f32]) -> u32
    ensures number { result ≡ (push_far_called state.old envelope.old samples.now).number }
    ensures words { state.new ≡ (push_far_called state.old envelope.old samples.now).words }
    ensures envelope { envelope.new ≡ (push_far_called state.old envelope.old samples.now).buffers }
{
    let refusal = judge(state, true);
    if refusal != 0 {
        return refusal;
    }
    let changed = scan_pair_calls::push_far(loading::load(state), envelope, samples);
    let next = changed.pair;
    let answer = changed.answer;
    storing::settle_far(state, words::change_number(answer), next)
}

// ---- one channel

// One near sample with its index: 16 ignored, 17 dropped, 18 taken, 19 the frame is full.
#[unsafe(no_mangle)]
pub extern "C" fn tmv_pair_push_near(
    state: &mut [u64],
    channel: u32,
    levels: &mut [f32],
    sample: f32,
    index: u64,
) -> u32
    ensures number { result ≡ (push_near_called state.old channel levels.old sample index).number }
    ensures words { state.new ≡ (push_near_called state.old channel levels.old sample index).words }
    ensures levels { levels.new ≡ (push_near_called state.old channel levels.old sample index).buffers }
{
    let refusal = judge_on(channel, state, true);
    if refusal != 0 {
        return refusal;
    }
    let took = scan_pair_calls::push_near(loading::load(state), channel, levels, sample, index);
    let next = took.pair;
    let answer = took.answer;
    storing::settle_in(
        state,
        scan_words::answering::taking_number(answer),
        channel,
        next,
    )
}

// A run of near samples with its first index: 16 ignored, 18 taken, 19 the frame is full; values[0] is how many of them.
#[unsafe(no_mangle)]
pub extern "C" fn tmv_pair_push_near_run(
    state: &mut [u64],
    channel: u32,
    levels: &mut [f32],
    samples: &[f32],
    first: u64,
    values: &mut [u64],
) -> u32
    ensures number { result ≡ (push_near_run_called state.old channel levels.old samples.now first values.old).number }
    ensures words { state.new ≡ (push_near_run_called state.old channel levels.old samples.now first values.old).words }
    ensures levels { levels.new ≡ (push_near_run_called state.old channel levels.old samples.now first values.old).buffers }
    ensures values { values.new ≡ (push_near_run_called state.old channel levels.old samples.now first values.old).values }
{
    let refusal = judge_on(channel, state, values.len() == RUN_VALUES);
    if refusal != 0 {
        return refusal;
    }
    let handed = scan_pair_calls::push_near_run(
        loading::load(state),
        channel,
        levels,
        samples,
        first,
    );
    let next = handed.pair;
    let answer = handed.answer;
    storing::settle_in(state, tell_run(values, answer), channel, next)
}

// A full frame is scored, as by tmv_scan_observe. Window, prefixes and scores are scratch.
#[unsafe(no_mangle)]
pub extern "C" fn tmv_pair_observe(
    state: &mut [u64],
    channel: u32,
    envelope: &[f32],
    levels: &[f32],
    window: &mut [f32],
    prefix: &mut [f64],
    squares: &mut [f64],
    scores: &mut [f64],
    lag_sums: &mut [f64],
    values: &mut [u64],
) -> u32
    ensures number { result ≡ (observe_called state.old channel (buffers_given envelope levels window prefix squares scores lag_sums) values.old).number }
    ensures words { state.new ≡ (observe_called state.old channel (buffers_given envelope levels window prefix squares scores lag_sums) values.old).words }
    ensures buffers { buffers_left envelope levels window prefix squares scores lag_sums ≡ (observe_called state.old channel (buffers_given envelope levels window prefix squares scores lag_sums) values.old).buffers }
    ensures values { values.new ≡ (observe_called state.old channel (buffers_given envelope levels window prefix squares scores lag_sums) values.old).values }
{
    let refusal = judge_on(
        channel,
        state,
        values.len() == scan_words::answering::FRAME_VALUES,
    );
    if refusal != 0 {
        return refusal;
    }
    let scored = scan_pair_calls::observe(
        loading::load(state),
        channel,
        envelope,
        levels,
        window,
        prefix,
        squares,
        scores,
        lag_sums,
    );
    let next = scored.pair;
    let answer = scored.answer;
    storing::settle_in(
        state,
        scan_words::answering::tell_scoring(values, answer),
        channel,
        next,
    )
}

// The channel's search begins anew, on the far history as it stands.
#[unsafe(no_mangle)]
pub extern "C" fn tmv_pair_rearm(state: &mut [u64], channel: u32, lag_sums: &mut [f64]) -> u32
    ensures number { result ≡ (rearm_called state.old channel lag_sums.old).number }
    ensures words { state.new ≡ (rearm_called state.old channel lag_sums.old).words }
    ensures sums { lag_sums.new ≡ (rearm_called state.old channel lag_sums.old).buffers }
{
    let refusal = judge_on(channel, state, true);
    if refusal != 0 {
        return refusal;
    }
    let changed = scan_pair_calls::rearm(loading::load(state), channel, lag_sums);
    let next = changed.pair;
    let answer = changed.answer;
    storing::settle_in(state, words::change_number(answer), channel, next)
}

// The channel's near frame under way is dropped, and its frames banked.
#[unsafe(no_mangle)]
pub extern "C" fn tmv_pair_discard_near(
    state: &mut [u64],
    channel: u32,
    lag_sums: &mut [f64],
) -> u32
    ensures number { result ≡ (discard_near_called state.old channel lag_sums.old).number }
    ensures words { state.new ≡ (discard_near_called state.old channel lag_sums.old).words }
    ensures sums { lag_sums.new ≡ (discard_near_called state.old channel lag_sums.old).buffers }
{
    let refusal = judge_on(channel, state, true);
    if refusal != 0 {
        return refusal;
    }
    let changed = scan_pair_calls::discard_near(loading::load(state), channel, lag_sums);
    let next = changed.pair;
    let answer = changed.answer;
    storing::settle_in(state, words::change_number(answer), channel, next)
}

// ---- reports of the settings

// One bin in native samples.
#[unsafe(no_mangle)]
pub extern "C" fn tmv_pair_bin_samples(state: &[u64], values: &mut [u64]) -> u32
    ensures number { result ≡ (bin_samples_called state.now values.old).number }
    ensures values { values.new ≡ (bin_samples_called state.now values.old).values }
{
    let refusal = judge(state, values.len() == words::ONE_VALUE);
    if refusal != 0 {
        return refusal;
    }
    scan_words::answering::tell_samples(
        values,
        scan_pair_calls::reports::bin_samples(loading::load(state)),
    )
}

// The ceiling in native samples.
#[unsafe(no_mangle)]
pub extern "C" fn tmv_pair_ceiling_samples(state: &[u64], values: &mut [u64]) -> u32
    ensures number { result ≡ (ceiling_samples_called state.now values.old).number }
    ensures values { values.new ≡ (ceiling_samples_called state.now values.old).values }
{
    let refusal = judge(state, values.len() == words::ONE_VALUE);
    if refusal != 0 {
        return refusal;
    }
    scan_words::answering::tell_samples(
        values,
        scan_pair_calls::reports::ceiling_samples(loading::load(state)),
    )
}

// ---- reports of a channel

// The frames counted.
#[unsafe(no_mangle)]
pub extern "C" fn tmv_pair_frames(state: &[u64], channel: u32, values: &mut [u64]) -> u32
    ensures number { result ≡ (frames_called state.now channel values.old).number }
    ensures values { values.new ≡ (frames_called state.now channel values.old).values }
{
    let refusal = judge_on(channel, state, values.len() == words::ONE_VALUE);
    if refusal != 0 {
        return refusal;
    }
    words::tell_count(
        values,
        scan_pair_calls::reports::frames(loading::load(state), channel),
    )
}

// The region's averaged correlation as f32, and before there is one the last frame's peak.
#[unsafe(no_mangle)]
pub extern "C" fn tmv_pair_correlation(state: &[u64], channel: u32, values: &mut [u64]) -> u32
    ensures number { result ≡ (correlation_called state.now channel values.old).number }
    ensures values { values.new ≡ (correlation_called state.now channel values.old).values }
{
    let refusal = judge_on(channel, state, values.len() == words::ONE_VALUE);
    if refusal != 0 {
        return refusal;
    }
    scan_words::answering::tell_level(
        values,
        scan_words::loading::level_pattern(loading::words_of(state, channel)),
        scan_pair_calls::reports::correlation(loading::load(state), channel),
    )
}

// The region: 16 none, 17 one (delay, correlation as f64).
#[unsafe(no_mangle)]
pub extern "C" fn tmv_pair_region(state: &[u64], channel: u32, values: &mut [u64]) -> u32
    ensures number { result ≡ (region_called state.now channel values.old).number }
    ensures values { values.new ≡ (region_called state.now channel values.old).values }
{
    let refusal = judge_on(
        channel,
        state,
        values.len() == scan_words::answering::REGION_VALUES,
    );
    if refusal != 0 {
        return refusal;
    }
    let own = loading::words_of(state, channel);
    scan_words::answering::tell_region(
        values,
        own[21],
        scan_pair_calls::reports::region(loading::load(state), channel),
    )
}

// Whether a peak stood at the ceiling: 16 no, 17 yes, as of the flags below.
#[unsafe(no_mangle)]
pub extern "C" fn tmv_pair_beyond_ceiling(state: &[u64], channel: u32) -> u32
    ensures { result ≡ (beyond_ceiling_called state.now channel).number }
{
    let refusal = judge_on(channel, state, true);
    if refusal != 0 {
        return refusal;
    }
    words::flag_number(scan_pair_calls::reports::beyond_ceiling(loading::load(state), channel))
}

// Whether the channel found a region or gave up.
#[unsafe(no_mangle)]
pub extern "C" fn tmv_pair_finished(state: &[u64], channel: u32) -> u32
    ensures { result ≡ (finished_called state.now channel).number }
{
    let refusal = judge_on(channel, state, true);
    if refusal != 0 {
        return refusal;
    }
    words::flag_number(scan_pair_calls::reports::finished(loading::load(state), channel))
}

// Whether the channel gave up.
#[unsafe(no_mangle)]
pub extern "C" fn tmv_pair_exhausted(state: &[u64], channel: u32) -> u32
    ensures { result ≡ (exhausted_called state.now channel).number }
{
    let refusal = judge_on(channel, state, true);
    if refusal != 0 {
        return refusal;
    }
    words::flag_number(scan_pair_calls::reports::exhausted(loading::load(state), channel))
}
