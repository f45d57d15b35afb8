// Near samples in runs: the state is judged once, and the samples are taken one after the other until one is refused or would fill the frame.
// The call has no `requires`; what it does is defined by single pushes in specs/Runs.
#![tactic(auto)]

ghost use Rattle.std.specs.Prelude.{◌≡◌, ◌+◌, ◌^◌, ◌<◌, ◌≤◌, false, length};
ghost use Rattle.scan_push.specs.Ready.{Gathers};
ghost use Rattle.scan.specs.Blocks.{dropped, held_at};
ghost use Rattle.scan.specs.declared.Far.{Far};
ghost use Rattle.scan.specs.declared.Verdict.{Verdict};
ghost use Rattle.scan_runs.specs.Runs.{Run, ran};
ghost use Rattle.scan_runs.specs.Ready;
ghost use Rattle.scan_runs.specs.Ready.{after_sample, total_of, stretched, Reaches, Open, scan_of, OpenNear};

use scan::{Geometry, Near, Scan};
use scan_calls::{parts, rules};
use scan_push::near;

// The state after a run, and how many samples passed.
#[derive(Clone, Copy)]
pub struct Ran {
    pub scan: Scan,
    pub passed: usize,
}

// The near side after a run, and how many samples passed.
#[derive(Clone, Copy)]
pub struct Walked {
    pub near: Near,
    pub passed: usize,
}

// The next sample that is taken completes the frame's last bin.
fn fills(g: Geometry, n: Near) -> bool
    requires { (n.count < g.decimation) × (n.len < g.frame) }
    ensures { result ≡ Ready.fills g n }
{
    n.count + 1 == g.decimation && n.len + 1 == g.frame
}

// A sample passes in a state that was judged.
fn passable(g: Geometry, n: Near, sample: f32, index: u64) -> bool
    requires { (n.count < g.decimation) × (n.len < g.frame) }
    ensures { result ≡ Ready.passable g n sample index }
{
    if !floats::is_finite(n.sum) || index >= answers::LIMIT {
        return false;
    }
    let held = near::held_at(n, index);
    near::dropped(g, held, index) || floats::is_finite32(sample) && !fills(g, held)
}

// What a sample that passes leaves.
fn step(g: Geometry, n: Near, levels: &mut [f32], sample: f32, index: u64) -> Near
    requires { (0 < g.decimation) × (dropped g (held_at n index) index ≡ false → Gathers g (held_at n index) levels.old sample) }
    ensures near { result ≡ (after_sample g (record { near = n; levels = levels.old }) sample index).near }
    ensures levels { levels.new ≡ (after_sample g (record { near = n; levels = levels.old }) sample index).levels }
{
    let held = near::held_at(n, index);
    if near::dropped(g, held, index) {
        return held;
    }
    near::gather(g, held, levels, sample, index)
}

// ---- samples that go on with a block are summed at once

fn total(sum: f64, samples: &[f32]) -> f64
    ensures { result ≡ total_of sum samples.now }
{
    let mut total = sum;
    for &sample in samples {
        total += floats::magnitude(f64::from(sample));
    }
    total
}

fn stretch(n: Near, samples: &[f32]) -> Near
    requires { (n.count + length samples.now < 2 ^ 64) × (0 < length samples.now → n.last + length samples.now < 2 ^ 64) }
    ensures { result ≡ stretched n samples.now }
{
    if samples.is_empty() {
        return n;
    }
    let sum = total(n.sum, samples);
    if !floats::is_finite(sum) {
        return n;
    }
    Near {
        sum,
        count: n.count + samples.len() as u64,
        last: n.last + samples.len() as u64,
        ..n
    }
}

// So many of the samples that are left can be summed at once: they do not complete the block, and one is left.
fn reach(g: Geometry, n: Near, index: u64, left: usize) -> usize
    requires { (n.count < g.decimation) × (g.decimation ≤ 192) × (0 < left) }
    ensures { Reaches g n index left result }
{
    if rules::idle(n) || !near::follows(n.last, index) {
        return 0;
    }
    let block = g.decimation - 1 - n.count;
    if index >= answers::LIMIT - block {
        return 0;
    }
    (block as usize).min(left - 1)
}

// ---- the run

// The samples one after the other, over the near side alone of a state that was judged.
pub fn walk(g: Geometry, before: Near, levels: &mut [f32], samples: &[f32], first: u64) -> Walked
    requires { OpenNear g before levels.old }
    ensures { (f : Far) (v : Verdict) → Open (scan_of g f before v) levels.old → ◌≡◌ {A = Run} (record { scan = scan_of g f result.near v; levels = levels.new; passed = result.passed }) (ran (scan_of g f before v) levels.old samples.now first) }
{
    // `i` is what the run answers, and a turn may go on by many samples: the rest as a slice would need this count beside it.
    let mut near = before;
    let mut index = first;
    let mut i = 0;
    while i < samples.len() {
        let end = i + reach(g, near, index, samples.len() - i);
        let after = stretch(near, &samples[i..end]);
        let taken = after.count - near.count;
        near = after;
        index += taken;
        i += taken as usize;
        let x = samples[i];
        if !passable(g, near, x, index) {
            return Walked { near, passed: i };
        }
        near = step(g, near, levels, x, index);
        index += 1;
        i += 1;
    }
    Walked { near, passed: i }
}

// Near samples of consecutive indices, from `first` on.
pub fn push_near_run(scan: Scan, levels: &mut [f32], samples: &[f32], first: u64) -> Ran
    ensures run { result ≡ record { scan = (ran scan levels.old samples.now first).scan; passed = (ran scan levels.old samples.now first).passed } }
    ensures levels { levels.new ≡ (ran scan levels.old samples.now first).levels }
{
    let g = scan.geometry;
    let due = rules::geometry_of(g.rate, g.ceiling);
    let n = rules::first_refusals(scan, due, levels.len() as u64 == due.frame);
    if n != 0 {
        return Ran { scan, passed: 0 };
    }
    if rules::finished(scan.verdict) {
        return Ran {
            scan,
            passed: samples.len(),
        };
    }
    if scan.near.len == g.frame {
        return Ran { scan, passed: 0 };
    }
    let walked = walk(g, scan.near, levels, samples, first);
    Ran {
        scan: parts::with_near(scan, walked.near),
        passed: walked.passed,
    }
}
