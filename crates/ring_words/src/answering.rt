// Gives what a call answers: a refusal's number below 16, or the case from 16 on, and the values that come with it, which go into a lent list.
ghost use Rattle.std.specs.Prelude.{◌≡◌, length};
ghost use Rattle.answers.specs.Told.{change_told};
ghost use Rattle.words.specs.Words.{one_value};
ghost use Rattle.words.specs.Answers.{number, given};
ghost use Rattle.ring.specs.Told.{kept_told};
ghost use Rattle.ring_words.specs.Layout.{ring_words, changed_words};

use ring::{Changed, Kept};

pub fn settle_change(state: &mut [u64], changed: Changed) -> u32
    requires { length state.old ≡ ring_words }
    ensures number { result ≡ number (change_told changed.answer) }
    ensures words { state.new ≡ changed_words state.old changed }
{
    crate::settle(state, words::change_number(changed.answer), changed.ring)
}

pub fn tell_kept(values: &mut [u64], kept: Kept) -> u32
    requires { length values.old ≡ one_value }
    ensures number { result ≡ number (kept_told kept) }
    ensures values { values.new ≡ given values.old (kept_told kept) }
{
    match kept {
        Kept::Refused(n) => n as u32,
        Kept::NotKept => 16,
        Kept::At(place) => {
            values[0] = place as u64;
            17
        }
    }
}
