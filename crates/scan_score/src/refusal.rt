// Refusals 1, 2, 3, 7 and 4 of a frame to be scored, in this order.
ghost use Rattle.std.specs.Prelude.{◌≡◌, ◌<◌, ◌^◌, length};
ghost use Rattle.scan.specs.Calls.{all_lengths, score_refusal};
ghost use Rattle.scan_score.specs.Observing.{lent, world, may_read, Sound};

use crate::window;
use scan::{Geometry, Scan};
use scan_calls::rules;

// 2. Each list has the length that the geometry gives.
pub fn all_lengths(
    slack: u32,
    g: Geometry,
    envelope: &[f32],
    levels: &[f32],
    window: &[f32],
    prefix: &[f64],
    squares: &[f64],
    scores: &[f64],
    sums: &[f64],
) -> bool
    requires { (g.frame < 2 ^ 62) × (g.span < 2 ^ 62) }
    ensures { result ≡ all_lengths slack g (lent envelope.now levels.now window.now prefix.now squares.now scores.now sums.now) }
{
    let bins = g.frame + g.span;
    envelope.len() as u64 == rules::envelope_len(slack, g)
        && levels.len() as u64 == g.frame
        && window.len() as u64 == bins
        && prefix.len() as u64 == bins + 1
        && squares.len() as u64 == bins + 1
        && scores.len() as u64 == g.span + 1
        && sums.len() as u64 == g.span + 1
}

// 4. Nothing is read, or all that is read is finite: near levels, the window's bins, lag sums.
fn readable(slack: u32, scan: Scan, envelope: &[f32], levels: &[f32], sums: &[f64]) -> bool
    requires { Sound slack scan envelope.now }
    ensures { result ≡ may_read slack scan envelope.now levels.now sums.now }
{
    let g = scan.geometry;
    let next = scan.far.next;
    let first = scan.near.first;
    if window::uncovered(slack, g, next, first) || window::ahead(g, next, first) {
        return true;
    }
    let start = first.saturating_sub(g.span);
    folds::all_finite(levels)
        && window::bins_finite(envelope, next, start, g.frame + g.span)
        && folds::all_finite64(sums)
}

pub fn refusal(
    slack: u32,
    scan: Scan,
    envelope: &[f32],
    levels: &[f32],
    window: &[f32],
    prefix: &[f64],
    squares: &[f64],
    scores: &[f64],
    sums: &[f64],
) -> u8
    ensures { result ≡ score_refusal slack (world scan (lent envelope.now levels.now window.now prefix.now squares.now scores.now sums.now)) }
{
    let due = rules::geometry_of(scan.geometry.rate, scan.geometry.ceiling);
    let lengths = all_lengths(
        slack, due, envelope, levels, window, prefix, squares, scores, sums,
    );
    let n = rules::first_refusals(scan, due, lengths);
    if n != 0 {
        return n;
    }
    if scan.near.len != scan.geometry.frame {
        return answers::NO_FULL_FRAME;
    }
    if readable(slack, scan, envelope, levels, sums) {
        return 0;
    }
    answers::NOT_FINITE
}
