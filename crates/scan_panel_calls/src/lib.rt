// The calls of the wall panel's profile (request j). Each refuses, with 1 and before all else, what the profile does not allow, and else is the scan's own call at the profile's slack.
// No call has a `requires`; what each of them does is defined in crate scan_panel. `reports` has the calls that only report.
#![tactic(auto)]

pub mod profile; // what the profile allows
mod made; // what a making returns
pub mod reports; // what a scan reports

ghost use Rattle.std.specs.Prelude.{◌≡◌};
ghost use Rattle.scan_score.specs.Observing.{lent, world, saw};
ghost use Rattle.scan_panel.specs.Panel.{panel_made, panel_reset, panel_rearmed, panel_discarded, panel_pushed_far, panel_pushed_near, panel_handed, panel_observed};

use scan::{Changed, Scan, Scored, Scoring, Taking, Took};
use scan_calls::{parts, restart};
use scan_handover::{Handed, RunTaking};

// How many bins the profile's far envelope keeps beyond the window.
pub const SLACK: u32 = 512;

// A new scan. Refused, it is the one for rate 8,000 and ceiling 8.
pub fn new(rate: u32, ceiling: u32, envelope: &mut [f32], lag_sums: &mut [f64]) -> Changed
    ensures changed { result ≡ (panel_made rate ceiling envelope.old lag_sums.old).changed }
    ensures envelope { envelope.new ≡ (panel_made rate ceiling envelope.old lag_sums.old).envelope }
    ensures sums { lag_sums.new ≡ (panel_made rate ceiling envelope.old lag_sums.old).lag_sums }
{
    if !profile::in_table(rate, ceiling) {
        return made::refused(answers::OUTSIDE_TABLE);
    }
    made::returned(restart::make(SLACK, rate, ceiling, envelope, lag_sums))
}

// The scan as it was made.
pub fn reset(scan: Scan, envelope: &mut [f32], lag_sums: &mut [f64]) -> Changed
    ensures changed { result ≡ (panel_reset scan envelope.old lag_sums.old).changed }
    ensures envelope { envelope.new ≡ (panel_reset scan envelope.old lag_sums.old).envelope }
    ensures sums { lag_sums.new ≡ (panel_reset scan envelope.old lag_sums.old).lag_sums }
{
    if !profile::allows(scan) {
        return parts::refused(scan, answers::OUTSIDE_TABLE);
    }
    restart::reset(SLACK, scan, envelope, lag_sums)
}

// The search begins anew, on the far history as it stands.
pub fn rearm(scan: Scan, lag_sums: &mut [f64]) -> Changed
    ensures changed { result ≡ (panel_rearmed scan lag_sums.old).changed }
    ensures sums { lag_sums.new ≡ (panel_rearmed scan lag_sums.old).lag_sums }
{
    if !profile::allows(scan) {
        return parts::refused(scan, answers::OUTSIDE_TABLE);
    }
    scan_calls::rearm(scan, lag_sums)
}

// The near frame under way is dropped, and the frames banked.
pub fn discard_near(scan: Scan, lag_sums: &mut [f64]) -> Changed
    ensures changed { result ≡ (panel_discarded scan lag_sums.old).changed }
    ensures sums { lag_sums.new ≡ (panel_discarded scan lag_sums.old).lag_sums }
{
    if !profile::allows(scan) {
        return parts::refused(scan, answers::OUTSIDE_TABLE);
    }
    scan_calls::discard_near(scan, lag_sums)
}

// Far samples, in played order.
pub fn push_far(scan: Scan, envelope: &mut [f32], samples: &[f32]) -> Changed
    ensures changed { result ≡ (panel_pushed_far scan envelope.old samples.now).changed }
    ensures envelope { envelope.new ≡ (panel_pushed_far scan envelope.old samples.now).envelope }
{
    if !profile::allows(scan) {
        return parts::refused(scan, answers::OUTSIDE_TABLE);
    }
    scan_push::far::push(SLACK, scan, envelope, samples)
}

// One near sample with its index.
pub fn push_near(scan: Scan, levels: &mut [f32], sample: f32, index: u64) -> Took
    ensures took { result ≡ (panel_pushed_near scan levels.old sample index).took }
    ensures levels { levels.new ≡ (panel_pushed_near scan levels.old sample index).levels }
{
    if !profile::allows(scan) {
        return Took {
            scan,
            answer: Taking::Refused(answers::OUTSIDE_TABLE),
        };
    }
    scan_push::push_near(scan, levels, sample, index)
}

// Near samples of consecutive indices, from `first` on.
pub fn push_near_run(scan: Scan, levels: &mut [f32], samples: &[f32], first: u64) -> Handed
    ensures handed { result ≡ (panel_handed scan levels.old samples.now first).handed }
    ensures levels { levels.new ≡ (panel_handed scan levels.old samples.now first).levels }
{
    if !profile::allows(scan) {
        return Handed {
            scan,
            answer: RunTaking::Refused(answers::OUTSIDE_TABLE),
        };
    }
    scan_handover::push_near_run(scan, levels, samples, first)
}

// A full frame is scored: one case of nine, with the products that its lag sums took. Refused, nothing is written and the frame still waits.
pub fn observe(
    scan: Scan,
    envelope: &[f32],
    levels: &[f32],
    window: &mut [f32],
    prefix: &mut [f64],
    squares: &mut [f64],
    scores: &mut [f64],
    lag_sums: &mut [f64],
) -> Scored
    ensures { saw result (lent envelope.now levels.now window.new prefix.new squares.new scores.new lag_sums.new) ≡ panel_observed (world scan (lent envelope.now levels.now window.old prefix.old squares.old scores.old lag_sums.old)) }
{
    if !profile::allows(scan) {
        return Scored {
            scan,
            answer: Scoring::Refused(answers::OUTSIDE_TABLE),
        };
    }
    scan_score::observe_with(
        SLACK, scan, envelope, levels, window, prefix, squares, scores, lag_sums,
    )
}
