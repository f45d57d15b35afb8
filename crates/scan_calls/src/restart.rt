// What a making and a reset have in common. Lent: the far envelope and the lag sums.
ghost use Rattle.std.specs.Prelude.{◌≡◌, ◌<◌, ◌^◌};
ghost use Rattle.scan.specs.Calls.{restart_lengths, making_refusal, made, reset_refusal, was_reset};

use crate::{parts, rules};
use scan::{Changed, Geometry, Scan};

fn lengths(slack: u32, g: Geometry, envelope: &[f32], lag_sums: &[f64]) -> bool
    requires { (g.frame < 2 ^ 62) × (g.span < 2 ^ 62) }
    ensures { result ≡ restart_lengths slack g envelope.now lag_sums.now }
{
    envelope.len() as u64 == rules::envelope_len(slack, g)
        && lag_sums.len() as u64 == rules::lags(g)
}

fn making_refusal(slack: u32, rate: u32, ceiling: u32, envelope: &[f32], lag_sums: &[f64]) -> u8
    ensures { result ≡ making_refusal slack rate ceiling envelope.now lag_sums.now }
{
    if !rules::in_table(rate, ceiling) {
        return answers::OUTSIDE_TABLE;
    }
    if !lengths(slack, rules::geometry_of(rate, ceiling), envelope, lag_sums) {
        return answers::WRONG_LENGTH;
    }
    0
}

pub fn make(
    slack: u32,
    rate: u32,
    ceiling: u32,
    envelope: &mut [f32],
    lag_sums: &mut [f64],
) -> Changed
    ensures changed { result ≡ (made slack rate ceiling envelope.old lag_sums.old).changed }
    ensures envelope { envelope.new ≡ (made slack rate ceiling envelope.old lag_sums.old).envelope }
    ensures sums { lag_sums.new ≡ (made slack rate ceiling envelope.old lag_sums.old).lag_sums }
{
    let n = making_refusal(slack, rate, ceiling, envelope, lag_sums);
    if n != 0 {
        return parts::refused(parts::new_scan(8000, 1), n);
    }
    folds::clear32(envelope);
    folds::clear64(lag_sums);
    parts::done(parts::new_scan(rate, ceiling))
}

fn reset_refusal(slack: u32, scan: Scan, envelope: &[f32], lag_sums: &[f64]) -> u8
    ensures { result ≡ reset_refusal slack scan envelope.now lag_sums.now }
{
    let due = rules::geometry_of(scan.geometry.rate, scan.geometry.ceiling);
    rules::first_refusals(scan, due, lengths(slack, due, envelope, lag_sums))
}

pub fn reset(slack: u32, scan: Scan, envelope: &mut [f32], lag_sums: &mut [f64]) -> Changed
    ensures changed { result ≡ (was_reset slack scan envelope.old lag_sums.old).changed }
    ensures envelope { envelope.new ≡ (was_reset slack scan envelope.old lag_sums.old).envelope }
    ensures sums { lag_sums.new ≡ (was_reset slack scan envelope.old lag_sums.old).lag_sums }
{
    let n = reset_refusal(slack, scan, envelope, lag_sums);
    if n != 0 {
        return parts::refused(scan, n);
    }
    folds::clear32(envelope);
    folds::clear64(lag_sums);
    parts::done(parts::as_new(scan.geometry))
}
