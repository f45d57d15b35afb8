// A making and a reset. Lent: the far envelope, and the lag sums of both channels.
ghost use Rattle.std.specs.Prelude.{◌≡◌, ◌<◌, ◌^◌, length};
ghost use Rattle.folds.specs.Sums.{zeros};
ghost use Rattle.scan_pair.specs.Calls.{both_lengths, pair_making_refusal, pair_made, pair_reset_refusal, pair_reset};

use crate::parts;
use scan::Geometry;
use scan_calls::rules;
use scan_pair::{Pair, PairChanged};

fn lengths(
    slack: u32,
    g: Geometry,
    envelope: &[f32],
    first_sums: &[f64],
    second_sums: &[f64],
) -> bool
    requires { (g.frame < 2 ^ 62) × (g.span < 2 ^ 62) }
    ensures { result ≡ both_lengths slack g envelope.now first_sums.now second_sums.now }
{
    envelope.len() as u64 == rules::envelope_len(slack, g)
        && first_sums.len() as u64 == rules::lags(g)
        && second_sums.len() as u64 == rules::lags(g)
}

fn making_refusal(
    slack: u32,
    rate: u32,
    ceiling: u32,
    envelope: &[f32],
    first_sums: &[f64],
    second_sums: &[f64],
) -> u8
    ensures { result ≡ pair_making_refusal slack rate ceiling envelope.now first_sums.now second_sums.now }
{
    if !rules::in_table(rate, ceiling) {
        return answers::OUTSIDE_TABLE;
    }
    if !lengths(
        slack,
        rules::geometry_of(rate, ceiling),
        envelope,
        first_sums,
        second_sums,
    ) {
        return answers::WRONG_LENGTH;
    }
    0
}

fn clear(envelope: &mut [f32], first_sums: &mut [f64], second_sums: &mut [f64])
    ensures envelope { envelope.new ≡ zeros (length envelope.old) }
    ensures first { first_sums.new ≡ zeros (length first_sums.old) }
    ensures second { second_sums.new ≡ zeros (length second_sums.old) }
{
    folds::clear32(envelope);
    folds::clear64(first_sums);
    folds::clear64(second_sums);
}

pub fn make(
    slack: u32,
    rate: u32,
    ceiling: u32,
    envelope: &mut [f32],
    first_sums: &mut [f64],
    second_sums: &mut [f64],
) -> PairChanged
    ensures changed { result ≡ (pair_made slack rate ceiling envelope.old first_sums.old second_sums.old).changed }
    ensures envelope { envelope.new ≡ (pair_made slack rate ceiling envelope.old first_sums.old second_sums.old).envelope }
    ensures first { first_sums.new ≡ (pair_made slack rate ceiling envelope.old first_sums.old second_sums.old).first_sums }
    ensures second { second_sums.new ≡ (pair_made slack rate ceiling envelope.old first_sums.old second_sums.old).second_sums }
{
    let n = making_refusal(slack, rate, ceiling, envelope, first_sums, second_sums);
    if n != 0 {
        return parts::refused(parts::as_new(rules::geometry_of(8000, 1)), n);
    }
    clear(envelope, first_sums, second_sums);
    parts::done(parts::as_new(rules::geometry_of(rate, ceiling)))
}

// 1 to 3 of the first channel, then of the second. Both are judged by the same lengths.
fn reset_refusal(
    slack: u32,
    pair: Pair,
    envelope: &[f32],
    first_sums: &[f64],
    second_sums: &[f64],
) -> u8
    ensures { result ≡ pair_reset_refusal slack pair envelope.now first_sums.now second_sums.now }
{
    let due = rules::geometry_of(pair.geometry.rate, pair.geometry.ceiling);
    let fit = lengths(slack, due, envelope, first_sums, second_sums);
    let n = rules::first_refusals(parts::scan_of(pair, 0), due, fit);
    if n != 0 {
        return n;
    }
    rules::first_refusals(parts::scan_of(pair, 1), due, fit)
}

pub fn reset(
    slack: u32,
    pair: Pair,
    envelope: &mut [f32],
    first_sums: &mut [f64],
    second_sums: &mut [f64],
) -> PairChanged
    ensures changed { result ≡ (pair_reset slack pair envelope.old first_sums.old second_sums.old).changed }
    ensures envelope { envelope.new ≡ (pair_reset slack pair envelope.old first_sums.old second_sums.old).envelope }
    ensures first { first_sums.new ≡ (pair_reset slack pair envelope.old first_sums.old second_sums.old).first_sums }
    ensures second { second_sums.new ≡ (pair_reset slack pair envelope.old first_sums.old second_sums.old).second_sums }
{
    let n = reset_refusal(slack, pair, envelope, first_sums, second_sums);
    if n != 0 {
        return parts::refused(pair, n);
    }
    clear(envelope, first_sums, second_sums);
    parts::done(parts::as_new(pair.geometry))
}
