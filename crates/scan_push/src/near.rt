// One near sample. Lent: the near envelope.
ghost use Rattle.std.specs.Prelude.{◌≡◌, true, eqb, ◌+◌, ◌<◌};
ghost use Rattle.std.specs.Float.Ieee.Scale.{finite};
ghost use Rattle.answers.specs.Pick.{pick, either};
ghost use Rattle.scan.specs.Blocks;
ghost use Rattle.scan.specs.Blocks.{held_at, first_bin};
ghost use Rattle.scan.specs.Calls.{near_refusal, taken_by, with_near};
ghost use Rattle.scan.specs.State.{full};
ghost use Rattle.scan.specs.declared.Taking.TheVariants as Taking;
ghost use Rattle.scan_push.specs.Ready.{Gathers};

use crate::level;
use scan::{Geometry, Near, Scan, Taking, Took};
use scan_calls::{parts, rules};

// No frame is under way, and the sample begins none.
pub fn dropped(g: Geometry, n: Near, index: u64) -> bool
    requires { 0 < g.decimation }
    ensures { result ≡ Blocks.dropped g n index }
{
    rules::idle(n) && index % g.decimation != 0
}

// The index is the last one plus one, which may not fit.
pub fn follows(last: u64, index: u64) -> bool
    ensures { result ≡ eqb index (last + 1) }
{
    index != 0 && index - 1 == last
}

// The near side as a sample with this index finds it: a hole drops the frame under way.
pub fn held_at(n: Near, index: u64) -> Near
    ensures { result ≡ held_at n index }
{
    if rules::idle(n) || follows(n.last, index) {
        return n;
    }
    parts::empty(n)
}

// A dropped sample is not read.
fn readable(g: Geometry, n: Near, sample: f32, index: u64) -> bool
    requires { 0 < g.decimation }
    ensures { result ≡ either (Blocks.dropped g n index) (finite sample) }
{
    dropped(g, n, index) || floats::is_finite32(sample)
}

pub fn refusal(scan: Scan, levels: &[f32], sample: f32, index: u64) -> u8
    ensures { result ≡ near_refusal scan levels.now sample index }
{
    let g = scan.geometry;
    let near = scan.near;
    let verdict = scan.verdict;
    let due = rules::geometry_of(g.rate, g.ceiling);
    let n = rules::first_refusals(scan, due, levels.len() as u64 == due.frame);
    if n != 0 {
        return n;
    }
    if rules::finished(verdict) {
        return 0;
    }
    if near.len == g.frame {
        return answers::FRAME_WAITS;
    }
    if index >= answers::LIMIT {
        return answers::TOO_LARGE;
    }
    if !readable(g, held_at(near, index), sample, index) {
        return answers::NOT_FINITE;
    }
    0
}

// The frame's first bin: this sample's, where it begins the frame.
pub fn first_bin(g: Geometry, n: Near, index: u64) -> u64
    requires { 0 < g.decimation }
    ensures { result ≡ first_bin g n index }
{
    if rules::idle(n) {
        return index / g.decimation;
    }
    n.first
}

// A sample that is not dropped: it completes the block, whose level is the frame's next bin, or it goes on with it.
pub fn gather(g: Geometry, n: Near, levels: &mut [f32], sample: f32, index: u64) -> Near
    requires { Gathers g n levels.old sample }
    ensures near { result ≡ (Blocks.gather g (record { near = n; levels = levels.old }) sample index).near }
    ensures levels { levels.new ≡ (Blocks.gather g (record { near = n; levels = levels.old }) sample index).levels }
{
    let first = first_bin(g, n, index);
    let sum = level::summed(n.sum, sample);
    let count = n.count + 1;
    if count != g.decimation {
        return Near {
            sum,
            count,
            first,
            last: index,
            ..n
        };
    }
    let bin = n.len as usize;
    levels[bin] = level::level_of(g, sum);
    Near {
        len: n.len + 1,
        sum: 0.0,
        count: 0,
        first,
        last: index,
    }
}

// The state with the sample taken, and whether the frame is full.
pub fn taken(scan: Scan, near: Near) -> Took
    ensures { result ≡ record { scan = with_near scan near; answer = pick (full scan.geometry near) Taking.Full Taking.Taken } }
{
    let with = parts::with_near(scan, near);
    if near.len == scan.geometry.frame {
        return Took {
            scan: with,
            answer: Taking::Full,
        };
    }
    Took {
        scan: with,
        answer: Taking::Taken,
    }
}
