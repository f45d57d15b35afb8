// The tracker's calls. crates/tracker_words/specs/Layout.antt says where each field of its state is.
#![tactic(auto)]

ghost use Rattle.std.specs.Prelude.{◌≡◌};
ghost use Rattle.tracker_words.specs.Layout.{tracker_words};
ghost use Rattle.tracker_face.specs.Calls.{judged_tracker, new_called, on_discontinuity_called, outcome_of, judged_as, cycled_on, on_cycle_called, jump_cycles_called, longest_run_called, suspect_called, quiescent_called};

use tracker::{Cycled, Outcome, Tracker};
use tracker_words::answering;
use units::Samples;

fn judge(state: &[u64], values_fit: bool) -> u32
    ensures { result ≡ judged_tracker state.now values_fit }
{
    if state.len() != tracker_words::WORDS {
        return answers::WRONG_LENGTH as u32;
    }
    face::setting_first(answers::allowed_rate(words::half(state[0], 0)), values_fit)
}

// Returns how many words a tracker's state has.
#[unsafe(no_mangle)]
pub extern "C" fn tmv_tracker_words() -> u64
    ensures { result ≡ tracker_words }
{
    tracker_words::WORDS as u64
}

// ---- calls that change the tracker

// Makes a tracker for a lock at `rate`.
#[unsafe(no_mangle)]
pub extern "C" fn tmv_tracker_new(state: &mut [u64], rate: u32) -> u32
    ensures number { result ≡ (new_called state.old rate).number }
    ensures words { state.new ≡ (new_called state.old rate).words }
{
    let refusal = face::setting_first(
        answers::allowed_rate(rate),
        state.len() == tracker_words::WORDS,
    );
    if refusal != 0 {
        return refusal;
    }
    answering::settle_change(state, Tracker::new(rate))
}

// Tells the tracker that the stream was cut.
#[unsafe(no_mangle)]
pub extern "C" fn tmv_tracker_on_discontinuity(state: &mut [u64]) -> u32
    ensures number { result ≡ (on_discontinuity_called state.old).number }
    ensures words { state.new ≡ (on_discontinuity_called state.old).words }
{
    let refusal = judge(state, true);
    if refusal != 0 {
        return refusal;
    }
    answering::settle_change(state, tracker_words::load(state).on_discontinuity())
}

// Refuses an unknown kind of cycle in the same way as an invalid flag: the tracker is judged as if it broke a rule.
fn judged_as(tracker: Tracker, kind: u32) -> Tracker
    ensures { result ≡ judged_as tracker kind }
{
    if kind < 3 {
        return tracker;
    }
    tracker.evidence(
        Some(Samples(answers::LIMIT)),
        tracker.prev,
        tracker.edges,
        tracker.jumps,
        tracker.unconfident,
        tracker.suspect,
    )
}

fn outcome(kind: u32, delay: u64) -> Outcome
    ensures { result ≡ outcome_of kind delay }
{
    if kind == 1 {
        return Outcome::Candidate {
            delay: Samples(delay),
            interior: true,
        };
    }
    if kind == 2 {
        return Outcome::Candidate {
            delay: Samples(delay),
            interior: false,
        };
    }
    Outcome::Unconfident
}

fn cycle(tracker: Tracker, alignment: u64, kind: u32, delay: u64) -> Cycled
    ensures { result ≡ cycled_on tracker alignment kind delay }
{
    judged_as(tracker, kind).on_cycle(Samples(alignment), outcome(kind, delay))
}

// Judges one concluded cycle. Kind 0 is unconfident (its delay is not looked at), 1 an interior candidate, 2 a candidate at an edge.
#[unsafe(no_mangle)]
pub extern "C" fn tmv_tracker_on_cycle(
    state: &mut [u64],
    alignment: u64,
    kind: u32,
    delay: u64,
    values: &mut [u64],
) -> u32
    ensures number { result ≡ (on_cycle_called state.old alignment kind delay values.old).number }
    ensures words { state.new ≡ (on_cycle_called state.old alignment kind delay values.old).words }
    ensures values { values.new ≡ (on_cycle_called state.old alignment kind delay values.old).values }
{
    let refusal = judge(state, values.len() == words::ONE_VALUE);
    if refusal != 0 {
        return refusal;
    }
    let cycled = cycle(tracker_words::load(state), alignment, kind, delay);
    let number = answering::tell_verdict(values, cycled.verdict);
    tracker_words::settle(state, number, cycled.tracker)
}

// ---- reports

// Reports the current run of contradicting cycles.
#[unsafe(no_mangle)]
pub extern "C" fn tmv_tracker_jump_cycles(state: &[u64], values: &mut [u64]) -> u32
    ensures number { result ≡ (jump_cycles_called state.now values.old).number }
    ensures values { values.new ≡ (jump_cycles_called state.now values.old).values }
{
    let refusal = judge(state, values.len() == words::ONE_VALUE);
    if refusal != 0 {
        return refusal;
    }
    words::tell_count(values, tracker_words::load(state).jump_cycles())
}

// Reports the largest such run since the making.
#[unsafe(no_mangle)]
pub extern "C" fn tmv_tracker_longest_run(state: &[u64], values: &mut [u64]) -> u32
    ensures number { result ≡ (longest_run_called state.now values.old).number }
    ensures values { values.new ≡ (longest_run_called state.now values.old).values }
{
    let refusal = judge(state, values.len() == words::ONE_VALUE);
    if refusal != 0 {
        return refusal;
    }
    words::tell_count(values, tracker_words::load(state).longest_run())
}

// Reports whether the lock is under suspicion after a discontinuity.
#[unsafe(no_mangle)]
pub extern "C" fn tmv_tracker_suspect(state: &[u64]) -> u32
    ensures { result ≡ (suspect_called state.now).number }
{
    let refusal = judge(state, true);
    if refusal != 0 {
        return refusal;
    }
    words::flag_number(tracker_words::load(state).suspect())
}

// Reports whether the tracker has no unfinished business.
#[unsafe(no_mangle)]
pub extern "C" fn tmv_tracker_quiescent(state: &[u64]) -> u32
    ensures { result ≡ (quiescent_called state.now).number }
{
    let refusal = judge(state, true);
    if refusal != 0 {
        return refusal;
    }
    words::flag_number(tracker_words::load(state).quiescent())
}
