// A push of far samples. Lent: the far envelope.
ghost use Rattle.std.specs.Prelude.{◌≡◌, ◌%◌, ◌≤◌, ◌<◌, length, set};
ghost use Rattle.scan.specs.Blocks.{hear_all, level_of};
ghost use Rattle.scan.specs.Calls.{far_refusal, pushed_far};
ghost use Rattle.scan_push.specs.Ready.{HearsAll, HearsPart, HearsTwo, HearsFour, HearsRun, RunLength};

use crate::{level, sums};
use scan::{Changed, Far, Geometry, Scan};
use scan_calls::{parts, rules};

fn refusal(slack: u32, scan: Scan, envelope: &[f32], samples: &[f32]) -> u8
    ensures { result ≡ far_refusal slack scan envelope.now samples.now }
{
    let due = rules::geometry_of(scan.geometry.rate, scan.geometry.ceiling);
    let n = rules::first_refusals(
        scan,
        due,
        envelope.len() as u64 == rules::envelope_len(slack, due),
    );
    if n != 0 {
        return n;
    }
    if scan.far.accepted + samples.len() as u64 > answers::LIMIT {
        return answers::TOO_LARGE;
    }
    if !folds::all_finite(samples) {
        return answers::NOT_FINITE;
    }
    0
}

// The level of a block, at the block's place.
fn store(g: Geometry, envelope: &mut [f32], block: u64, sum: f64)
    requires { (g.decimation ≤ 192) × (0 < length envelope.old) }
    ensures { envelope.new ≡ set envelope.old (block % length envelope.old) (level_of g sum) }
{
    let slot = (block % envelope.len() as u64) as usize;
    envelope[slot] = level::level_of(g, sum);
}

// Samples of one block: they complete it, and its level is stored, or they go on with it.
fn hear_part(slack: u32, g: Geometry, f: Far, envelope: &mut [f32], samples: &[f32]) -> Far
    requires { HearsPart slack g f envelope.old samples.now }
    ensures far { result ≡ (hear_all slack g (record { far = f; envelope = envelope.old }) samples.now).far }
    ensures envelope { envelope.new ≡ (hear_all slack g (record { far = f; envelope = envelope.old }) samples.now).envelope }
{
    let sum = sums::run(f.sum, samples, 0, samples.len());
    let count = f.count + samples.len() as u64;
    let accepted = f.accepted + samples.len() as u64;
    if count != g.decimation {
        return Far {
            sum,
            count,
            accepted,
            ..f
        };
    }
    let block = f.next;
    let next = block + 1;
    store(g, envelope, block, sum);
    Far {
        next,
        sum: 0.0,
        count: 0,
        accepted,
    }
}

// Samples that complete the block under way, and with the rest of them go on with the next one, or complete it too.
fn hear_two(slack: u32, g: Geometry, f: Far, envelope: &mut [f32], samples: &[f32]) -> Far
    requires { HearsTwo slack g f envelope.old samples.now }
    ensures far { result ≡ (hear_all slack g (record { far = f; envelope = envelope.old }) samples.now).far }
    ensures envelope { envelope.new ≡ (hear_all slack g (record { far = f; envelope = envelope.old }) samples.now).envelope }
{
    let rest = (g.decimation - f.count) as usize;
    let sums = sums::two(f.sum, samples, rest);
    let count = (samples.len() - rest) as u64;
    let accepted = f.accepted + samples.len() as u64;
    let after = f.next + 1;
    store(g, envelope, f.next, sums.first);
    if count != g.decimation {
        return Far {
            next: after,
            sum: sums.second,
            count,
            accepted,
        };
    }
    store(g, envelope, after, sums.second);
    Far {
        next: after + 1,
        sum: 0.0,
        count: 0,
        accepted,
    }
}

// Four whole blocks.
fn hear_four(slack: u32, g: Geometry, f: Far, envelope: &mut [f32], samples: &[f32]) -> Far
    requires { HearsFour slack g f envelope.old samples.now }
    ensures far { result ≡ (hear_all slack g (record { far = f; envelope = envelope.old }) samples.now).far }
    ensures envelope { envelope.new ≡ (hear_all slack g (record { far = f; envelope = envelope.old }) samples.now).envelope }
{
    let sums = sums::four(f.sum, samples, g.decimation as usize);
    let second = f.next + 1;
    let third = second + 1;
    let fourth = third + 1;
    store(g, envelope, f.next, sums.first);
    store(g, envelope, second, sums.second);
    store(g, envelope, third, sums.third);
    store(g, envelope, fourth, sums.fourth);
    Far {
        next: fourth + 1,
        sum: 0.0,
        count: 0,
        accepted: f.accepted + samples.len() as u64,
    }
}

fn hear_run(slack: u32, g: Geometry, f: Far, envelope: &mut [f32], samples: &[f32]) -> Far
    requires { HearsRun slack g f envelope.old samples.now }
    ensures far { result ≡ (hear_all slack g (record { far = f; envelope = envelope.old }) samples.now).far }
    ensures envelope { envelope.new ≡ (hear_all slack g (record { far = f; envelope = envelope.old }) samples.now).envelope }
{
    if f.count + samples.len() as u64 <= g.decimation {
        return hear_part(slack, g, f, envelope, samples);
    }
    if f.count + samples.len() as u64 <= 2 * g.decimation {
        return hear_two(slack, g, f, envelope, samples);
    }
    hear_four(slack, g, f, envelope, samples)
}

// How many of the samples left make the next run: four whole blocks, or what there is of the block under way and the one after it.
fn run_length(g: Geometry, f: Far, left: usize) -> usize
    requires { (f.count < g.decimation) × (g.decimation ≤ 192) × (0 < left) }
    ensures { RunLength g f left result }
{
    if f.count == 0 && 4 * g.decimation <= left as u64 {
        return 4 * g.decimation as usize;
    }
    let rest = (2 * g.decimation - f.count) as usize;
    rest.min(left)
}

// A push goes run by run, in a state that was judged.
pub fn hear_all(slack: u32, g: Geometry, far: Far, envelope: &mut [f32], samples: &[f32]) -> Far
    requires { HearsAll slack g far envelope.old samples.now }
    ensures far { result ≡ (hear_all slack g (record { far = far; envelope = envelope.old }) samples.now).far }
    ensures envelope { envelope.new ≡ (hear_all slack g (record { far = far; envelope = envelope.old }) samples.now).envelope }
{
    let mut f = far;
    let mut rest = samples;
    while !rest.is_empty() {
        let (run, later) = rest.split_at(run_length(g, f, rest.len()));
        f = hear_run(slack, g, f, envelope, run);
        rest = later;
    }
    f
}

pub fn push(slack: u32, scan: Scan, envelope: &mut [f32], samples: &[f32]) -> Changed
    ensures changed { result ≡ (pushed_far slack scan envelope.old samples.now).changed }
    ensures envelope { envelope.new ≡ (pushed_far slack scan envelope.old samples.now).envelope }
{
    let number = refusal(slack, scan, envelope, samples);
    if number != 0 {
        return parts::refused(scan, number);
    }
    let heard = hear_all(slack, scan.geometry, scan.far, envelope, samples);
    parts::done(parts::with_far(scan, heard))
}
