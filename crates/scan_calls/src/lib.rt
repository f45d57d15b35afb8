// The coarse scan's state: it is made, reset, rearmed, and asked what it found. No call has a `requires`; what each of them does is defined in crate scan.
// The modules have the functions behind the calls; `reports` has the calls that only report.
#![tactic(auto)]

pub mod rules; // refusals 1, 2 and 3, which every call begins with
pub mod parts; // the parts of a state, as new and exchanged
pub mod restart; // a making and a reset
pub mod clearing; // rearm and discard_near
pub mod reports; // what a scan reports

ghost use Rattle.std.specs.Prelude.{◌≡◌};
ghost use Rattle.scan.specs.Bins.{full_slack};
ghost use Rattle.scan.specs.Calls.{made, was_reset, rearmed, discarded};

use scan::{Changed, Scan};

// How many bins the far envelope keeps beyond the window (COARSE_RING_SLACK_BINS).
pub const SLACK: u32 = 4000;

// A new scan. Refused, it is the one for rate 8,000 and ceiling 1.
pub fn new(rate: u32, ceiling: u32, envelope: &mut [f32], lag_sums: &mut [f64]) -> Changed
    ensures changed { result ≡ (made full_slack rate ceiling envelope.old lag_sums.old).changed }
    ensures envelope { envelope.new ≡ (made full_slack rate ceiling envelope.old lag_sums.old).envelope }
    ensures sums { lag_sums.new ≡ (made full_slack rate ceiling envelope.old lag_sums.old).lag_sums }
{
    restart::make(SLACK, rate, ceiling, envelope, lag_sums)
}

// The scan as it was made.
pub fn reset(scan: Scan, envelope: &mut [f32], lag_sums: &mut [f64]) -> Changed
    ensures changed { result ≡ (was_reset full_slack scan envelope.old lag_sums.old).changed }
    ensures envelope { envelope.new ≡ (was_reset full_slack scan envelope.old lag_sums.old).envelope }
    ensures sums { lag_sums.new ≡ (was_reset full_slack scan envelope.old lag_sums.old).lag_sums }
{
    restart::reset(SLACK, scan, envelope, lag_sums)
}

// The search begins anew, on the far history as it stands.
pub fn rearm(scan: Scan, lag_sums: &mut [f64]) -> Changed
    ensures changed { result ≡ (rearmed scan lag_sums.old).changed }
    ensures sums { lag_sums.new ≡ (rearmed scan lag_sums.old).lag_sums }
{
    clearing::clear(scan, lag_sums, parts::searching_anew(scan))
}

// The near frame but for its first bin and the last index, and the frames banked; the frames counted, the last peak, the region and the flags stay.
pub fn discard_near(scan: Scan, lag_sums: &mut [f64]) -> Changed
    ensures changed { result ≡ (discarded scan lag_sums.old).changed }
    ensures sums { lag_sums.new ≡ (discarded scan lag_sums.old).lag_sums }
{
    let cleared = parts::with_near_verdict(
        scan,
        parts::empty(scan.near),
        parts::unbank(scan.verdict),
    );
    clearing::clear(scan, lag_sums, cleared)
}
