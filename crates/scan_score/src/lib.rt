// `observe` of coarse.rs: a full frame is scored by steps 1 to 8 of SPECIFICATION 7.
#![tactic(auto)]

ghost use Rattle.std.specs.Prelude.{◌≡◌, List, ◌≤◌, ◌<◌, ◌^◌, length, Float};
ghost use Rattle.std.specs.Float.{binary64};
ghost use Rattle.std.specs.Float.Ieee.{add};
ghost use Rattle.folds.specs.Sums.{table, at};
ghost use Rattle.scan.specs.Bins.{full_slack};
ghost use Rattle.scan.specs.Scoring;
ghost use Rattle.scan.specs.Calls.{counted_frame, judged, scored_frame, observed};
ghost use Rattle.scan_calls.specs.Bounds.{Bounds};
ghost use Rattle.scan_score.specs.Observing.{lent, world, saw, ended, Fit, Ready};

use scan::{Frame, Near, Scan, Scored, Verdict};
use scan_calls::parts;

pub mod refusal;
pub mod window;

// The window's mean at or below it is silence (COARSE_FAR_ACTIVE_FLOOR).
const ACTIVE_FLOOR: f64 = 3.1622777e-4;

// ---- 3. and 4.

fn quiet(window: &[f32]) -> bool
    requires { length window.now ≤ 2 ^ 53 }
    ensures { result ≡ Scoring.quiet window.now }
{
    scan_lags::mean(window) <= ACTIVE_FLOOR
}

fn flat(levels: &[f32]) -> bool
    requires { length levels.now ≤ 2 ^ 53 }
    ensures { result ≡ Scoring.flat levels.now }
{
    scan_lags::near_energy(levels) <= scan_lags::ENERGY_FLOOR
}

// ---- 5. to 8.

fn add_scores(scores: &[f64], sums: &mut [f64])
    requires { length scores.now ≡ length sums.old }
    ensures { sums.new ≡ table (λ k. add binary64 (at sums.old k) (at scores.now k)) (length sums.old) }
{
    for (k, sum) in sums.iter_mut().enumerate() {
        *sum += scores[k];
    }
}

// The near frame is consumed in every case.
fn after(scan: Scan, verdict: Verdict, answer: Frame, products: u64) -> Scored
    ensures { result ≡ ended scan verdict answer products }
{
    let near = Near {
        len: 0,
        ..scan.near
    };
    Scored {
        scan: parts::with_near_verdict(scan, near, verdict),
        answer: scan::Scoring::Frame(answer, products),
    }
}

// The frame counts: each lag whose sum was formed took as many products as the frame has bins. Envelope and old window, which are not lent here, may be any.
fn count_frame(
    scan: Scan,
    levels: &[f32],
    window: &[f32],
    prefix: &mut [f64],
    squares: &mut [f64],
    scores: &mut [f64],
    sums: &mut [f64],
) -> Scored
    requires { Fit scan.geometry levels.now window.now prefix.old squares.old scores.old sums.old × Bounds scan.geometry × (scan.verdict.banked < 4) }
    ensures { (e w : List Float) → saw result (lent e levels.now window.now prefix.new squares.new scores.new sums.new) ≡ counted_frame (world scan (lent e levels.now w prefix.old squares.old scores.old sums.old)) levels.now window.now }
{
    let live = scan_lags::write_scores(levels, window, prefix, squares, scores);
    let products = scan.geometry.frame * live;
    let peak = folds::search_down(scores);
    add_scores(scores, sums);
    let ruled = scan_decision::rule(scan.geometry, scan.verdict, peak.value, sums);
    after(scan, ruled.verdict, ruled.answer, products)
}

// Steps 3 to 8, from the near levels and the window.
fn judge(
    scan: Scan,
    levels: &[f32],
    window: &[f32],
    prefix: &mut [f64],
    squares: &mut [f64],
    scores: &mut [f64],
    sums: &mut [f64],
) -> Scored
    requires { Fit scan.geometry levels.now window.now prefix.old squares.old scores.old sums.old × Bounds scan.geometry × (scan.verdict.banked < 4) }
    ensures { (e w : List Float) → saw result (lent e levels.now window.now prefix.new squares.new scores.new sums.new) ≡ judged (world scan (lent e levels.now w prefix.old squares.old scores.old sums.old)) levels.now window.now }
{
    let v = scan.verdict;
    if quiet(window) {
        return after(scan, v, Frame::Quiet, 0);
    }
    if flat(levels) {
        return after(scan, v, Frame::Flat, 0);
    }
    count_frame(scan, levels, window, prefix, squares, scores, sums)
}

// Steps 1 to 8.
fn score(
    slack: u32,
    scan: Scan,
    envelope: &[f32],
    levels: &[f32],
    window: &mut [f32],
    prefix: &mut [f64],
    squares: &mut [f64],
    scores: &mut [f64],
    sums: &mut [f64],
) -> Scored
    requires { Ready slack scan (lent envelope.now levels.now window.old prefix.old squares.old scores.old sums.old) }
    ensures { saw result (lent envelope.now levels.now window.new prefix.new squares.new scores.new sums.new) ≡ scored_frame slack (world scan (lent envelope.now levels.now window.old prefix.old squares.old scores.old sums.old)) }
{
    let g = scan.geometry;
    let v = scan.verdict;
    let next = scan.far.next;
    let first = scan.near.first;
    if window::uncovered(slack, g, next, first) {
        return after(scan, v, Frame::Uncovered, 0);
    }
    if window::ahead(g, next, first) {
        return after(scan, v, Frame::Ahead, 0);
    }
    window::fill(envelope, next, first.saturating_sub(g.span), window);
    judge(scan, levels, window, prefix, squares, scores, sums)
}

// With any slack of the envelope.
pub fn observe_with(
    slack: u32,
    scan: Scan,
    envelope: &[f32],
    levels: &[f32],
    window: &mut [f32],
    prefix: &mut [f64],
    squares: &mut [f64],
    scores: &mut [f64],
    sums: &mut [f64],
) -> Scored
    ensures { saw result (lent envelope.now levels.now window.new prefix.new squares.new scores.new sums.new) ≡ observed slack (world scan (lent envelope.now levels.now window.old prefix.old squares.old scores.old sums.old)) }
{
    let n = refusal::refusal(
        slack, scan, envelope, levels, window, prefix, squares, scores, sums,
    );
    if n != 0 {
        return Scored {
            scan,
            answer: scan::Scoring::Refused(n),
        };
    }
    score(
        slack, scan, envelope, levels, window, prefix, squares, scores, sums,
    )
}

// A full frame is scored: one case of nine, with the products that its lag sums took. Refused, nothing is written and the frame still waits.
pub fn observe(
    scan: Scan,
    envelope: &[f32],
    levels: &[f32],
    window: &mut [f32],
    prefix: &mut [f64],
    squares: &mut [f64],
    scores: &mut [f64],
    lag_sums: &mut [f64],
) -> Scored
    ensures { saw result (lent envelope.now levels.now window.new prefix.new squares.new scores.new lag_sums.new) ≡ observed full_slack (world scan (lent envelope.now levels.now window.old prefix.old squares.old scores.old lag_sums.old)) }
{
    observe_with(
        scan_calls::SLACK,
        scan,
        envelope,
        levels,
        window,
        prefix,
        squares,
        scores,
        lag_sums,
    )
}
