// Two microphones, one loudspeaker (request n): the calls of a pair. Each takes a channel's scan out of the pair, makes the scan's own call, and puts back what that left.
// No call has a `requires`; what each of them does is defined in crate scan_pair, and of a run in specs/Runs.
// A call that names a channel which is not 0 or 1 is refused with 11, and nothing else is looked at.
#![tactic(auto)]

pub mod parts; // a channel's scan, out of the pair and back
pub mod restart; // a making and a reset
pub mod reports; // what a channel reports, and the settings

ghost use Rattle.std.specs.Prelude.{◌≡◌};
ghost use Rattle.scan.specs.Bins.{full_slack};
ghost use Rattle.scan_score.specs.Observing.{lent};
ghost use Rattle.scan_pair.specs.State.{named};
ghost use Rattle.scan_pair.specs.Calls.{pair_made, pair_reset, pair_far, pair_near, pair_observed, pair_rearmed, pair_discarded};
ghost use Rattle.scan_pair_calls.specs.Observing.{pair_saw};
ghost use Rattle.scan_pair_calls.specs.Runs.{pair_handed};

use answers::Change;
use scan::{Scoring, Taking};
use scan_handover::RunTaking;
use scan_pair::{NO_SUCH_CHANNEL, Pair, PairChanged, PairScored, PairTook};

// Of a run: the state that comes back, with the answer.
#[derive(Clone, Copy)]
pub struct PairHanded {
    pub pair: Pair,
    pub answer: RunTaking,
}

// A new pair. Refused, it is the one for rate 8,000 and ceiling 1.
pub fn new(
    rate: u32,
    ceiling: u32,
    envelope: &mut [f32],
    first_sums: &mut [f64],
    second_sums: &mut [f64],
) -> PairChanged
    ensures changed { result ≡ (pair_made full_slack rate ceiling envelope.old first_sums.old second_sums.old).changed }
    ensures envelope { envelope.new ≡ (pair_made full_slack rate ceiling envelope.old first_sums.old second_sums.old).envelope }
    ensures first { first_sums.new ≡ (pair_made full_slack rate ceiling envelope.old first_sums.old second_sums.old).first_sums }
    ensures second { second_sums.new ≡ (pair_made full_slack rate ceiling envelope.old first_sums.old second_sums.old).second_sums }
{
    restart::make(
        scan_calls::SLACK,
        rate,
        ceiling,
        envelope,
        first_sums,
        second_sums,
    )
}

// The pair as it was made: numbering begins anew for both channels at once.
pub fn reset(
    pair: Pair,
    envelope: &mut [f32],
    first_sums: &mut [f64],
    second_sums: &mut [f64],
) -> PairChanged
    ensures changed { result ≡ (pair_reset full_slack pair envelope.old first_sums.old second_sums.old).changed }
    ensures envelope { envelope.new ≡ (pair_reset full_slack pair envelope.old first_sums.old second_sums.old).envelope }
    ensures first { first_sums.new ≡ (pair_reset full_slack pair envelope.old first_sums.old second_sums.old).first_sums }
    ensures second { second_sums.new ≡ (pair_reset full_slack pair envelope.old first_sums.old second_sums.old).second_sums }
{
    restart::reset(scan_calls::SLACK, pair, envelope, first_sums, second_sums)
}

// Far samples, in played order, for both channels: the common part alone is judged.
pub fn push_far(pair: Pair, envelope: &mut [f32], samples: &[f32]) -> PairChanged
    ensures changed { result ≡ (pair_far full_slack pair envelope.old samples.now).changed }
    ensures envelope { envelope.new ≡ (pair_far full_slack pair envelope.old samples.now).envelope }
{
    let pushed = scan_push::push_far(parts::common(pair), envelope, samples);
    PairChanged {
        pair: parts::with_far(pair, pushed.scan.far),
        answer: pushed.answer,
    }
}

// One near sample with its index.
pub fn push_near(pair: Pair, channel: u32, levels: &mut [f32], sample: f32, index: u64) -> PairTook
    ensures took { result ≡ (pair_near pair (named channel) levels.old sample index).took }
    ensures levels { levels.new ≡ (pair_near pair (named channel) levels.old sample index).levels }
{
    if channel >= 2 {
        return PairTook {
            pair,
            answer: Taking::Refused(NO_SUCH_CHANNEL),
        };
    }
    let took = scan_push::push_near(parts::scan_of(pair, channel), levels, sample, index);
    PairTook {
        pair: parts::left_in(pair, channel, took.scan),
        answer: took.answer,
    }
}

// Near samples of consecutive indices, from `first` on.
pub fn push_near_run(
    pair: Pair,
    channel: u32,
    levels: &mut [f32],
    samples: &[f32],
    first: u64,
) -> PairHanded
    ensures handed { result ≡ (pair_handed pair (named channel) levels.old samples.now first).handed }
    ensures levels { levels.new ≡ (pair_handed pair (named channel) levels.old samples.now first).levels }
{
    if channel >= 2 {
        return PairHanded {
            pair,
            answer: RunTaking::Refused(NO_SUCH_CHANNEL),
        };
    }
    let handed = scan_handover::push_near_run(
        parts::scan_of(pair, channel),
        levels,
        samples,
        first,
    );
    PairHanded {
        pair: parts::left_in(pair, channel, handed.scan),
        answer: handed.answer,
    }
}

// A full frame of the channel is scored. Window, prefixes and scores are scratch: any call of either channel may be lent them again.
pub fn observe(
    pair: Pair,
    channel: u32,
    envelope: &[f32],
    levels: &[f32],
    window: &mut [f32],
    prefix: &mut [f64],
    squares: &mut [f64],
    scores: &mut [f64],
    lag_sums: &mut [f64],
) -> PairScored
    ensures { pair_saw result (lent envelope.now levels.now window.new prefix.new squares.new scores.new lag_sums.new) ≡ pair_observed full_slack pair (named channel) (lent envelope.now levels.now window.old prefix.old squares.old scores.old lag_sums.old) }
{
    if channel >= 2 {
        return PairScored {
            pair,
            answer: Scoring::Refused(NO_SUCH_CHANNEL),
        };
    }
    let scored = scan_score::observe(
        parts::scan_of(pair, channel),
        envelope,
        levels,
        window,
        prefix,
        squares,
        scores,
        lag_sums,
    );
    PairScored {
        pair: parts::left_in(pair, channel, scored.scan),
        answer: scored.answer,
    }
}

// The channel's search begins anew, on the far history as it stands.
pub fn rearm(pair: Pair, channel: u32, lag_sums: &mut [f64]) -> PairChanged
    ensures changed { result ≡ (pair_rearmed pair (named channel) lag_sums.old).changed }
    ensures sums { lag_sums.new ≡ (pair_rearmed pair (named channel) lag_sums.old).lag_sums }
{
    if channel >= 2 {
        return PairChanged {
            pair,
            answer: Change::Refused(NO_SUCH_CHANNEL),
        };
    }
    let rearmed = scan_calls::rearm(parts::scan_of(pair, channel), lag_sums);
    PairChanged {
        pair: parts::left_in(pair, channel, rearmed.scan),
        answer: rearmed.answer,
    }
}

// The channel's near frame under way is dropped, and its frames banked.
pub fn discard_near(pair: Pair, channel: u32, lag_sums: &mut [f64]) -> PairChanged
    ensures changed { result ≡ (pair_discarded pair (named channel) lag_sums.old).changed }
    ensures sums { lag_sums.new ≡ (pair_discarded pair (named channel) lag_sums.old).lag_sums }
{
    if channel >= 2 {
        return PairChanged {
            pair,
            answer: Change::Refused(NO_SUCH_CHANNEL),
        };
    }
    let discarded = scan_calls::discard_near(parts::scan_of(pair, channel), lag_sums);
    PairChanged {
        pair: parts::left_in(pair, channel, discarded.scan),
        answer: discarded.answer,
    }
}
