// How far and near samples become levels: the two pushes. No call has a `requires`; what each of them does is defined in crate scan.
// The modules have the functions behind the calls.
#![tactic(auto)]

pub mod level; // a block's level
pub mod sums; // sums of absolute values, for far pushes and runs of near samples
pub mod far; // a push of far samples
pub mod near; // one near sample

ghost use Rattle.std.specs.Prelude.{◌≡◌};
ghost use Rattle.scan.specs.Bins.{full_slack};
ghost use Rattle.scan.specs.Calls.{pushed_far, pushed_near};

use scan::{Changed, Scan, Taking, Took};

// Far samples, in played order.
pub fn push_far(scan: Scan, envelope: &mut [f32], samples: &[f32]) -> Changed
    ensures changed { result ≡ (pushed_far full_slack scan envelope.old samples.now).changed }
    ensures envelope { envelope.new ≡ (pushed_far full_slack scan envelope.old samples.now).envelope }
{
    far::push(scan_calls::SLACK, scan, envelope, samples)
}

// One near sample with its index.
pub fn push_near(scan: Scan, levels: &mut [f32], sample: f32, index: u64) -> Took
    ensures took { result ≡ (pushed_near scan levels.old sample index).took }
    ensures levels { levels.new ≡ (pushed_near scan levels.old sample index).levels }
{
    let n = near::refusal(scan, levels, sample, index);
    if n != 0 {
        return Took {
            scan,
            answer: Taking::Refused(n),
        };
    }
    if scan_calls::rules::finished(scan.verdict) {
        return Took {
            scan,
            answer: Taking::Ignored,
        };
    }
    let held = near::held_at(scan.near, index);
    if near::dropped(scan.geometry, held, index) {
        return Took {
            scan: scan_calls::parts::with_near(scan, held),
            answer: Taking::Dropped,
        };
    }
    let gathered = near::gather(scan.geometry, held, levels, sample, index);
    near::taken(scan, gathered)
}
