// Gives what a call answers and leaves: the number of its answer, and the values that come with it, which go into a lent list (words: Answers).
ghost use Rattle.std.specs.Prelude.{◌≡◌, length};
ghost use Rattle.answers.specs.Told.{change_told};
ghost use Rattle.words.specs.Words.{one_value};
ghost use Rattle.words.specs.Answers.{number, given};
ghost use Rattle.tracker.specs.Told.{reacquire, verdict_told};
ghost use Rattle.tracker_words.specs.Layout.{tracker_words};
ghost use Rattle.tracker_words.specs.Answers.{changed_words};

use tracker::{Changed, Trigger, Verdict};

pub fn settle_change(state: &mut [u64], changed: Changed) -> u32
    requires { length state.old ≡ tracker_words }
    ensures number { result ≡ number (change_told changed.answer) }
    ensures words { state.new ≡ changed_words state.old changed }
{
    crate::settle(state, words::change_number(changed.answer), changed.tracker)
}

fn trigger_number(trigger: Trigger) -> u32
    ensures { result ≡ number (reacquire trigger) }
{
    match trigger {
        Trigger::Edge => 18,
        Trigger::Lost => 19,
        Trigger::Jump => 20,
        Trigger::Seam => 21,
    }
}

pub fn tell_verdict(values: &mut [u64], verdict: Verdict) -> u32
    requires { length values.old ≡ one_value }
    ensures number { result ≡ number (verdict_told verdict) }
    ensures values { values.new ≡ given values.old (verdict_told verdict) }
{
    match verdict {
        Verdict::Refused(n) => n as u32,
        Verdict::Hold => 16,
        Verdict::Move(to) => {
            values[0] = to.0;
            17
        }
        Verdict::Reacquire(trigger) => trigger_number(trigger),
    }
}
