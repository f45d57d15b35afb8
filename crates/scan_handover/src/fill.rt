// The samples of a run that go into the frame, block by block: nothing is tested any more.
ghost use Rattle.std.specs.Prelude.{◌≡◌, ◌+◌, ◌-◌, ◌≤◌, ◌<◌, length, set, take, drop};
ghost use Rattle.scan_handover.specs.Handover.{gather_all};
ghost use Rattle.scan.specs.Blocks.{level_of};
ghost use Rattle.scan_handover.specs.Ready.{Fills, FillsBlock, FillsFour, FillsRun, Reach, FillsBetween};

use scan::{Geometry, Near};
use scan_push::{level, near, sums};

// The level of a block, as the frame's bin.
fn store(g: Geometry, levels: &mut [f32], bin: u64, sum: f64)
    requires { (g.decimation ≤ 192) × (bin < length levels.old) }
    ensures { levels.new ≡ set levels.old bin (level_of g sum) }
{
    let slot = bin as usize;
    levels[slot] = level::level_of(g, sum);
}

// Samples of one block: they complete it, and its level is the frame's next bin, or they go on with it.
fn block(g: Geometry, n: Near, levels: &mut [f32], samples: &[f32], index: u64) -> Near
    requires { FillsBlock g n levels.old samples.now index }
    ensures near { result ≡ (gather_all g (record { near = n; levels = levels.old }) samples.now index).near }
    ensures levels { levels.new ≡ (gather_all g (record { near = n; levels = levels.old }) samples.now index).levels }
{
    let first = near::first_bin(g, n, index);
    let sum = sums::run(n.sum, samples, 0, samples.len());
    let count = n.count + samples.len() as u64;
    let last = index + samples.len() as u64 - 1;
    if count != g.decimation {
        return Near {
            sum,
            count,
            first,
            last,
            ..n
        };
    }
    let bin = n.len;
    store(g, levels, bin, sum);
    Near {
        len: bin + 1,
        sum: 0.0,
        count: 0,
        first,
        last,
    }
}

// Four whole blocks, whose sums run side by side.
fn four(g: Geometry, n: Near, levels: &mut [f32], samples: &[f32], index: u64) -> Near
    requires { FillsFour g n levels.old samples.now index }
    ensures near { result ≡ (gather_all g (record { near = n; levels = levels.old }) samples.now index).near }
    ensures levels { levels.new ≡ (gather_all g (record { near = n; levels = levels.old }) samples.now index).levels }
{
    let first = near::first_bin(g, n, index);
    let sums = sums::four(n.sum, samples, g.decimation as usize);
    let last = index + samples.len() as u64 - 1;
    let bin = n.len;
    let second = bin + 1;
    let third = second + 1;
    let fourth = third + 1;
    store(g, levels, bin, sums.first);
    store(g, levels, second, sums.second);
    store(g, levels, third, sums.third);
    store(g, levels, fourth, sums.fourth);
    Near {
        len: fourth + 1,
        sum: 0.0,
        count: 0,
        first,
        last,
    }
}

fn run(g: Geometry, n: Near, levels: &mut [f32], samples: &[f32], index: u64) -> Near
    requires { FillsRun g n levels.old samples.now index }
    ensures near { result ≡ (gather_all g (record { near = n; levels = levels.old }) samples.now index).near }
    ensures levels { levels.new ≡ (gather_all g (record { near = n; levels = levels.old }) samples.now index).levels }
{
    if n.count + samples.len() as u64 <= g.decimation {
        return block(g, n, levels, samples, index);
    }
    four(g, n, levels, samples, index)
}

// How many of the samples that are left go in at once: four whole blocks, or what there is of the block under way.
fn reach(g: Geometry, n: Near, left: usize) -> usize
    requires { (n.count < g.decimation) × (g.decimation ≤ 192) × (0 < left) }
    ensures { Reach g n left result }
{
    if n.count == 0 && 4 * g.decimation <= left as u64 {
        return 4 * g.decimation as usize;
    }
    let rest = (g.decimation - n.count) as usize;
    rest.min(left)
}

fn all(g: Geometry, near: Near, levels: &mut [f32], samples: &[f32], index: u64) -> Near
    requires { Fills g near levels.old samples.now index }
    ensures near { result ≡ (gather_all g (record { near = near; levels = levels.old }) samples.now index).near }
    ensures levels { levels.new ≡ (gather_all g (record { near = near; levels = levels.old }) samples.now index).levels }
{
    let mut n = near;
    let mut rest = samples;
    let mut at = index;
    while !rest.is_empty() {
        let (part, later) = rest.split_at(reach(g, n, rest.len()));
        n = run(g, n, levels, part, at);
        at += part.len() as u64;
        rest = later;
    }
    n
}

// The samples from one place up to another, of a run with this first index: none where the one is not before the other.
pub fn between(
    g: Geometry,
    n: Near,
    levels: &mut [f32],
    samples: &[f32],
    first: u64,
    from: usize,
    end: usize,
) -> Near
    requires { FillsBetween g n levels.old samples.now first from end }
    ensures near { result ≡ (gather_all g (record { near = n; levels = levels.old }) (drop from (take end samples.now)) (first + from)).near }
    ensures levels { levels.new ≡ (gather_all g (record { near = n; levels = levels.old }) (drop from (take end samples.now)) (first + from)).levels }
{
    if end <= from {
        return n;
    }
    all(g, n, levels, &samples[from..end], first + from as u64)
}
