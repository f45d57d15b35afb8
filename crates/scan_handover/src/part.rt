// The part of a run that would be taken, from the near side as the run's first sample finds it.
ghost use Rattle.std.specs.Prelude.{◌≡◌, true, ◌+◌, ◌-◌, ◌≤◌, ◌<◌, min, ltb, length, take, drop};
ghost use Rattle.answers.specs.Numbers.{limit};
ghost use Rattle.answers.specs.Refusals.{require, none, too_large, not_finite};
ghost use Rattle.folds.specs.Sums.{all_finite};
ghost use Rattle.scan_handover.specs.Handover;
ghost use Rattle.scan_handover.specs.Ready.{Wants};

use scan::{Geometry, Near};
use scan_calls::rules;

// The samples before the one that begins a frame.
pub fn lead(g: Geometry, n: Near, first: u64) -> usize
    requires { (0 < g.decimation) × (g.decimation ≤ 192) }
    ensures { result ≡ Handover.lead g n first }
{
    if !rules::idle(n) {
        return 0;
    }
    let past = first % g.decimation;
    if past == 0 {
        return 0;
    }
    (g.decimation - past) as usize
}

// The samples that the frame still wants.
fn wants(g: Geometry, n: Near) -> u64
    requires { Wants g n }
    ensures { result ≡ Handover.wants g n }
{
    g.frame * g.decimation - (n.len * g.decimation + n.count)
}

// So many of the samples are taken.
pub fn takes(g: Geometry, n: Near, lead: usize, samples: usize) -> usize
    requires { Wants g n × (lead ≤ 192) }
    ensures { result ≡ min samples (lead + Handover.wants g n) }
{
    (samples as u64).min(lead as u64 + wants(g, n)) as usize
}

// Samples from one place up to another: none where the one is not before the other.
fn finite_between(samples: &[f32], from: usize, end: usize) -> bool
    requires { end ≤ length samples.now }
    ensures { result ≡ all_finite (drop from (take end samples.now)) }
{
    end <= from || folds::all_finite(&samples[from..end])
}

// 5 and 4, over the part that would be taken.
pub fn refusal(samples: &[f32], first: u64, lead: usize, end: usize) -> u8
    requires { (1 ≤ end) × (end ≤ length samples.now) × (end ≤ limit) }
    ensures { result ≡ require (ltb (first + end - 1) limit) too_large (require (all_finite (drop lead (take end samples.now))) not_finite none) }
{
    if first > answers::LIMIT - end as u64 {
        return answers::TOO_LARGE;
    }
    if !finite_between(samples, lead, end) {
        return answers::NOT_FINITE;
    }
    0
}
