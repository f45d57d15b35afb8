// Steps 6 to 8 of SPECIFICATION 7: a frame that counts is banked, and on the fourth the averages decide.
#![tactic(auto)]

ghost use Rattle.std.specs.Prelude.{◌≡◌, ◌+◌, ◌≤◌, ◌<◌, ◌^◌, length};
ghost use Rattle.std.specs.Float.{binary64};
ghost use Rattle.std.specs.Float.Ieee.{mul};
ghost use Rattle.folds.specs.Sums.{table, at};
ghost use Rattle.scan.specs.Bins.{lags};
ghost use Rattle.scan.specs.Scoring;
ghost use Rattle.scan.specs.Scoring.{one_fourth, at_ceiling, rival_with, rival_of, crowded_by, found_by, beyond_by, exhausted_by, verdict_by, ruling};
ghost use Rattle.scan_decision.specs.Deciding.{ruled, Small};

use scan::{Found, Frame, Geometry, Region, Verdict};
use units::Bins;

// The answer of a frame that counts, and the verdict after it.
#[derive(Clone, Copy)]
pub struct Ruled {
    pub answer: Frame,
    pub verdict: Verdict,
}

// ---- 7. on the fourth

// An average is a fourth of the sum.
const ONE_FOURTH: f64 = 0.25;

// The sums times 0.25.
fn average(sums: &mut [f64])
    ensures { sums.new ≡ table (λ k. mul binary64 (at sums.old k) one_fourth) (length sums.old) }
{
    for sum in sums.iter_mut() {
        *sum *= ONE_FOURTH;
    }
}

// Whether the peak's delay lies within the guard below the ceiling, or past it.
fn at_ceiling(g: Geometry, delay: Bins) -> bool
    requires { delay.0 + g.ceiling_guard < 2 ^ 64 }
    ensures { result ≡ at_ceiling g delay }
{
    delay.0 + g.ceiling_guard > g.span
}

// The best so far, and the average x at lag n. Lag k is the peak's.
fn rival_with(g: Geometry, k: u64, best: f64, n: u64, x: f64) -> f64
    ensures { result ≡ rival_with g k best n x }
{
    if n.abs_diff(k) <= g.peak_guard {
        return best;
    }
    if best < x { x } else { best }
}

// The best average farther than the peak guard from lag k, if it is above 0, else 0.
fn rival(g: Geometry, averages: &[f64], k: u64) -> f64
    requires { length averages.now ≡ lags g }
    ensures { result ≡ rival_of g averages.now k }
{
    let mut best = 0.0;
    for (n, &average) in averages.iter().enumerate() {
        best = rival_with(g, k, best, n as u64, average);
    }
    best
}

fn crowded(rival: f64, peak: f64) -> bool
    ensures { result ≡ crowded_by rival peak }
{
    0.0 < rival && peak < scan::COARSE_SIDELOBE_RATIO * rival
}

// Weak, ceiling, crowded or region.
fn decide(g: Geometry, averages: &[f64]) -> Frame
    requires { Small g × (length averages.now ≡ lags g) }
    ensures { result ≡ Scoring.decision g averages.now }
{
    let peak = folds::search_down(averages);
    if peak.value < scan::COARSE_CONFIDENT_CORR {
        return Frame::Weak;
    }
    let delay = Bins(g.span.saturating_sub(peak.place));
    let beyond = at_ceiling(g, delay);
    let rivalled = crowded(rival(g, averages, peak.place), peak.value);
    if beyond {
        return Frame::Ceiling;
    }
    if rivalled {
        return Frame::Crowded;
    }
    Frame::Region(Region {
        delay: delay.in_samples(g.decimation),
        correlation: peak.value,
    })
}

// ---- the verdict after a frame that counts

// A region is found.
fn found_by(answer: Frame, found: Found) -> Found
    ensures { result ≡ found_by answer found }
{
    match answer {
        Frame::Region(region) => Found::At(region),
        Frame::Uncovered
        | Frame::Ahead
        | Frame::Quiet
        | Frame::Flat
        | Frame::Banked(_)
        | Frame::Weak
        | Frame::Ceiling
        | Frame::Crowded => found,
    }
}

// Ceiling sets the flag, a region clears it; weak and crowded leave it.
fn beyond_by(answer: Frame, beyond: bool) -> bool
    ensures { result ≡ beyond_by answer beyond }
{
    match answer {
        Frame::Ceiling => true,
        Frame::Region(_) => false,
        Frame::Uncovered
        | Frame::Ahead
        | Frame::Quiet
        | Frame::Flat
        | Frame::Banked(_)
        | Frame::Crowded
        | Frame::Weak => beyond,
    }
}

// 8. 64 or more frames now count without a region.
fn exhausted_by(frames: u32, found: Found, before: bool) -> bool
    ensures { result ≡ exhausted_by frames found before }
{
    before || frames >= scan::COARSE_GIVE_UP_FRAMES && matches!(found, Found::Nothing)
}

fn verdict_by(v: Verdict, peak: f64, answer: Frame, banked: u32) -> Verdict
    ensures { result ≡ verdict_by v peak answer banked }
{
    let frames = v.frames.saturating_add(1);
    let found = found_by(answer, v.found);
    Verdict {
        banked,
        frames,
        last: floats::narrowed(peak),
        found,
        beyond: beyond_by(answer, v.beyond),
        exhausted: exhausted_by(frames, found, v.exhausted),
    }
}

// ---- 6 to 8. `sums` has this frame's scores already; on the fourth they return to 0.
pub fn rule(g: Geometry, v: Verdict, peak: f64, sums: &mut [f64]) -> Ruled
    requires { Small g × (v.banked < 4) × (length sums.old ≡ lags g) }
    ensures { ruled result sums.new ≡ ruling g v peak sums.old }
{
    let banked = v.banked + 1;
    if banked < scan::COARSE_MIN_FRAMES {
        let answer = Frame::Banked(floats::narrowed(peak));
        return Ruled {
            answer,
            verdict: verdict_by(v, peak, answer, banked),
        };
    }
    average(sums);
    let answer = decide(g, sums);
    folds::clear64(sums);
    Ruled {
        answer,
        verdict: verdict_by(v, peak, answer, 0),
    }
}
