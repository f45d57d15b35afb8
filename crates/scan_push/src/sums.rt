// Sums of absolute values in order, of samples that are known to be finite.
ghost use Rattle.std.specs.Prelude.{◌≡◌, true, ◌+◌, ◌-◌, ◌≤◌, length};
ghost use Rattle.floats.specs.Functions.{zero64};
ghost use Rattle.folds.specs.Sums.{all_finite};
ghost use Rattle.scan_push.specs.Ready.{FourBlocks};
ghost use Rattle.scan_push.specs.Onward.{onward};

use crate::level;

// A sum goes on with the n samples from `from` on.
pub fn run(start: f64, samples: &[f32], from: usize, n: usize) -> f64
    requires { (from + n ≤ length samples.now) × (all_finite samples.now ≡ true) }
    ensures { result ≡ onward start samples.now from n }
{
    let mut sum = start;
    for &sample in &samples[from..from + n] {
        sum = level::summed(sum, sample);
    }
    sum
}

// Two and four sums have a name each, and no array with a const parameter: the loops below keep each in a register of its own, and what a sum goes on from differs.
#[derive(Clone, Copy)]
pub struct TwoSums {
    pub first: f64,
    pub second: f64,
}

// Two sums side by side, of n samples each: one goes on from `start`, the other begins at sample m.
fn abreast(start: f64, samples: &[f32], m: usize, n: usize) -> TwoSums
    requires { (m + n ≤ length samples.now) × (all_finite samples.now ≡ true) }
    ensures { result ≡ record { first = onward start samples.now 0 n; second = onward zero64 samples.now m n } }
{
    let mut first = start;
    let mut next = 0.0;
    for i in 0..n {
        first = level::summed(first, samples[i]);
        next = level::summed(next, samples[m + i]);
    }
    TwoSums {
        first,
        second: next,
    }
}

// The first m samples go on from `start`; the others begin anew. Side by side as far as both reach.
pub fn two(start: f64, samples: &[f32], m: usize) -> TwoSums
    requires { (m ≤ length samples.now) × (all_finite samples.now ≡ true) }
    ensures { result ≡ record { first = onward start samples.now 0 m; second = onward zero64 samples.now m (length samples.now - m) } }
{
    let others = samples.len() - m;
    let n = m.min(others);
    let begun = abreast(start, samples, m, n);
    TwoSums {
        first: run(begun.first, samples, n, m - n),
        second: run(begun.second, samples, m + n, others - n),
    }
}

#[derive(Clone, Copy)]
pub struct FourSums {
    pub first: f64,
    pub second: f64,
    pub third: f64,
    pub fourth: f64,
}

// Four blocks of d samples side by side, the first of them from `start` on. A sum waits for each of its additions; four wait at the same time.
// Each runs in its own order, so every bit is as if one came after the other.
pub fn four(start: f64, samples: &[f32], d: usize) -> FourSums
    requires { FourBlocks d samples.now }
    ensures { result ≡ record { first = onward start samples.now 0 d; second = onward zero64 samples.now d d; third = onward zero64 samples.now (d + d) d; fourth = onward zero64 samples.now (d + d + d) d } }
{
    let mut first = start;
    let mut second = 0.0;
    let mut third = 0.0;
    let mut fourth = 0.0;
    for i in 0..d {
        first = level::summed(first, samples[i]);
        second = level::summed(second, samples[d + i]);
        third = level::summed(third, samples[d + d + i]);
        fourth = level::summed(fourth, samples[d + d + d + i]);
    }
    FourSums {
        first,
        second,
        third,
        fourth,
    }
}
