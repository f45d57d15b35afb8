// What rearm and discard_near have in common. Lent: the lag sums.
ghost use Rattle.std.specs.Prelude.{◌≡◌};
ghost use Rattle.scan.specs.Calls.{clear_refusal, clearing};

use crate::{parts, rules};
use scan::{Changed, Scan};

fn refusal(scan: Scan, lag_sums: &[f64]) -> u8
    ensures { result ≡ clear_refusal scan lag_sums.now }
{
    let due = rules::geometry_of(scan.geometry.rate, scan.geometry.ceiling);
    rules::first_refusals(scan, due, lag_sums.len() as u64 == rules::lags(due))
}

// The call leaves `cleared`, and zeros in the lag sums.
pub fn clear(scan: Scan, lag_sums: &mut [f64], cleared: Scan) -> Changed
    ensures changed { result ≡ (clearing scan lag_sums.old cleared).changed }
    ensures sums { lag_sums.new ≡ (clearing scan lag_sums.old cleared).lag_sums }
{
    let n = refusal(scan, lag_sums);
    if n != 0 {
        return parts::refused(scan, n);
    }
    folds::clear64(lag_sums);
    parts::done(cleared)
}
