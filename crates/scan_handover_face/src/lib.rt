// The call of request a, near samples in runs, on the words that a host lends. The scan's other calls are in crate scan_face.
#![tactic(auto)]

ghost use Rattle.std.specs.Prelude.{◌≡◌, length};
ghost use Rattle.words.specs.Words.{one_value};
ghost use Rattle.words.specs.Answers.{number, given};
ghost use Rattle.scan_handover.specs.Told.{run_told};
ghost use Rattle.scan_handover_face.specs.Calls.{judged_run, push_near_run_called};

use scan_handover::RunTaking;
use scan_words::{loading, storing};

// How many values a run is lent a list for.
const VALUES: usize = 1;

// scan_face has this function too: the contract of each cites the definition of its own face.
fn judge(state: &[u64], values_fit: bool) -> u32
    ensures { result ≡ judged_run state.now values_fit }
{
    if state.len() != scan_words::WORDS {
        return answers::WRONG_LENGTH as u32;
    }
    face::setting_first(
        scan_calls::rules::in_table(words::half(state[0], 0), words::half(state[1], 0)),
        values_fit,
    )
}

pub fn tell_run(values: &mut [u64], answer: RunTaking) -> u32
    requires { length values.old ≡ one_value }
    ensures number { result ≡ number (run_told answer) }
    ensures values { values.new ≡ given values.old (run_told answer) }
{
    match answer {
        RunTaking::Refused(n) => n as u32,
        RunTaking::Ignored(n) => {
            values[0] = n as u64;
            16
        }
        RunTaking::Taken(n) => {
            values[0] = n as u64;
            18
        }
        RunTaking::Full(n) => {
            values[0] = n as u64;
            19
        }
    }
}

// A run of near samples with its first index: 16 ignored, 18 taken, 19 the frame is full; values[0] is how many of them.
#[unsafe(no_mangle)]
pub extern "C" fn tmv_scan_push_near_run(
    state: &mut [u64],
    levels: &mut [f32],
    samples: &[f32],
    first: u64,
    values: &mut [u64],
) -> u32
    ensures number { result ≡ (push_near_run_called state.old levels.old samples.now first values.old).number }
    ensures words { state.new ≡ (push_near_run_called state.old levels.old samples.now first values.old).words }
    ensures levels { levels.new ≡ (push_near_run_called state.old levels.old samples.now first values.old).buffers }
    ensures values { values.new ≡ (push_near_run_called state.old levels.old samples.now first values.old).values }
{
    let refusal = judge(state, values.len() == VALUES);
    if refusal != 0 {
        return refusal;
    }
    let handed = scan_handover::push_near_run(loading::load(state), levels, samples, first);
    let next = handed.scan;
    let answer = handed.answer;
    storing::settle(state, tell_run(values, answer), next)
}
