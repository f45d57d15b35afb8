// The window of a frame: whether the envelope holds it, and its bins, read across the envelope's wrap.
ghost use Rattle.std.specs.Prelude.{◌≡◌, ℕ, ◌+◌, ◌%◌, ◌<◌, ◌^◌, ltb, length};
ghost use Rattle.answers.specs.Pick.{pick};
ghost use Rattle.answers.specs.Numbers.{limit};
ghost use Rattle.floats.specs.Functions.{zero64};
ghost use Rattle.folds.specs.Sums.{at, all_finite};
ghost use Rattle.scan.specs.Scoring;
ghost use Rattle.scan_calls.specs.Bounds.{Bounds};
ghost use Rattle.scan_score.specs.Observing.{bins_from};

use scan::Geometry;
use scan_calls::rules;

// 1. The window starts before bin 0, or before the oldest bin kept.
pub fn uncovered(slack: u32, g: Geometry, next: u64, first: u64) -> bool
    requires { Bounds g }
    ensures { result ≡ Scoring.uncovered slack g next first }
{
    first < g.span || first - g.span < next.saturating_sub(rules::envelope_len(slack, g))
}

// 2. More than frame / 4 of its last bins are not yet written.
pub fn ahead(g: Geometry, next: u64, first: u64) -> bool
    requires { Bounds g × (first < limit) }
    ensures { result ≡ Scoring.ahead g next first }
{
    g.frame / scan::COARSE_TAIL_DEFICIT_DEN < (first + g.frame).saturating_sub(next)
}

// Bin j, which stands in this slot; an unwritten one reads as 0.
fn bin_at(envelope: &[f32], next: u64, j: u64, slot: usize) -> f32
    requires { slot < length envelope.now }
    ensures { result ≡ pick (ltb j next) (at envelope.now slot) zero64 }
{
    if j < next { envelope[slot] } else { 0.0 }
}

// The slot of the bin after.
fn slot_after(slot: usize, len: usize) -> usize
    requires { slot < len }
    ensures { (j : ℕ) → slot ≡ j % len → result ≡ (j + 1) % len }
{
    if slot + 1 < len { slot + 1 } else { 0 }
}

// Whether n bins from `start` on are all finite.
pub fn bins_finite(envelope: &[f32], next: u64, start: u64, n: u64) -> bool
    requires { (0 < length envelope.now) × (start + n < 2 ^ 64) }
    ensures { result ≡ all_finite (bins_from envelope.now next start n) }
{
    let len = envelope.len();
    let mut slot = (start % len as u64) as usize;
    for i in 0..n {
        if !floats::is_finite32(bin_at(envelope, next, start + i, slot)) {
            return false;
        }
        slot = slot_after(slot, len);
    }
    true
}

// The bins from `start` on.
pub fn fill(envelope: &[f32], next: u64, start: u64, window: &mut [f32])
    requires { (0 < length envelope.now) × (start + length window.old < 2 ^ 64) }
    ensures { window.new ≡ bins_from envelope.now next start (length window.old) }
{
    let len = envelope.len();
    let mut slot = (start % len as u64) as usize;
    for (i, bin) in window.iter_mut().enumerate() {
        *bin = bin_at(envelope, next, start + i as u64, slot);
        slot = slot_after(slot, len);
    }
}
