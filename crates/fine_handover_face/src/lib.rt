// Near samples of the fine stage in runs, on the words that a host lends; and the length of its transform. The fine stage's other calls are in crate fine_face.
#![tactic(auto)]

ghost use Rattle.std.specs.Prelude.{◌≡◌, length};
ghost use Rattle.words.specs.Words.{one_value};
ghost use Rattle.words.specs.Answers.{number, given};
ghost use Rattle.fine_handover.specs.Told.{run_told};
ghost use Rattle.fine_handover_face.specs.Calls.{transform_len, judged_run, push_near_run_called};

use fine::Lengths;
use fine_handover::RunTaking;

// How many values a run is lent a list for.
const VALUES: usize = 1;

// Returns the length of the host's transform; 0 if the span is outside the table.
#[unsafe(no_mangle)]
pub extern "C" fn tmv_fine_transform_len(span: u32) -> u64
    ensures { result ≡ transform_len span }
{
    if !answers::allowed_span(span) {
        return 0;
    }
    let lengths = Lengths::of(span);
    lengths.transform
}

// fine_face has this function too: the contract of each cites the definition of its own face.
fn judge(state: &[u64], values_fit: bool) -> u32
    ensures { result ≡ judged_run state.now values_fit }
{
    if state.len() != fine_words::WORDS {
        return answers::WRONG_LENGTH as u32;
    }
    face::setting_first(answers::allowed_span(words::half(state[0], 0)), values_fit)
}

fn tell_run(values: &mut [u64], answer: RunTaking) -> u32
    requires { length values.old ≡ one_value }
    ensures number { result ≡ number (run_told answer) }
    ensures values { values.new ≡ given values.old (run_told answer) }
{
    match answer {
        RunTaking::Refused(n) => n as u32,
        RunTaking::Taken(n) => {
            values[0] = n as u64;
            16
        }
        RunTaking::Full(n) => {
            values[0] = n as u64;
            17
        }
    }
}

// Takes consecutive near samples: 16 taken, 17 the frame is full; values[0] is how many of them.
#[unsafe(no_mangle)]
pub extern "C" fn tmv_fine_push_near_run(
    state: &mut [u64],
    near_frame: &mut [f32],
    samples: &[f32],
    values: &mut [u64],
) -> u32
    ensures number { result ≡ (push_near_run_called state.old near_frame.old samples.now values.old).number }
    ensures words { state.new ≡ (push_near_run_called state.old near_frame.old samples.now values.old).words }
    ensures near { near_frame.new ≡ (push_near_run_called state.old near_frame.old samples.now values.old).buffers }
    ensures values { values.new ≡ (push_near_run_called state.old near_frame.old samples.now values.old).values }
{
    let refusal = judge(state, values.len() == VALUES);
    if refusal != 0 {
        return refusal;
    }
    let handed = fine_handover::push_near_run(fine_words::load(state), near_frame, samples);
    let next = handed.fine;
    let answer = handed.answer;
    fine_words::settle(state, tell_run(values, answer), next)
}
