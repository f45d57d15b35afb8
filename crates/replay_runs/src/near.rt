// A near event.
ghost use Rattle.std.specs.Prelude.{◌≡◌, List, ℕ, ◌+◌, ◌-◌, ◌^◌, ◌≤◌, ◌<◌, eqb, Float, length};
ghost use Rattle.std.specs.Float.Ieee.Scale.{finite};
ghost use Rattle.answers.specs.Pick.{both};
ghost use Rattle.scan.specs.Bins.{near_len};
ghost use Rattle.scan.specs.State.{due};
ghost use Rattle.recording.specs.Samples.{bytes_of};
ghost use Rattle.recording.specs.declared.Event.TheVariants as event;
ghost use Rattle.replay_near.specs.Telling.{Holds};
ghost use Rattle.replay_runs.specs.Silences.{Calm, Before, Plays, Supplied, took_on};

use crate::Silence;
use recording::{Form, Header, Used};
use replay::Session;
use replay_entry::{Supply, supplies};
use replay_stream::Bytes;
use scan::Near;
use scan_calls::rules;

// The next event follows where no sample is left.
fn goes_on(left: usize, sum: f64) -> bool
    ensures { result ≡ both (eqb left 0) (finite sum) }
{
    left == 0 && floats::is_finite(sum)
}

// So many of the event's samples passed.
fn took(form: Form, at: Silence, count: u32, first: u64, near: Near, passed: usize) -> Silence
    requires { (at.number < 2 ^ 32 - 1) × (at.bytes.events + 16 < 2 ^ 64) × (at.bytes.near + bytes_of form passed < 2 ^ 64) × (at.used.near + count < 2 ^ 64) × (passed ≤ count) × (count ≤ 4096) }
    ensures { result ≡ took_on form at count first near passed }
{
    let left = count as usize - passed;
    Silence {
        number: at.number + 1,
        index: replay::events::later(first, passed),
        left,
        near,
        used: Used {
            near: at.used.near + count as u64,
            ..at.used
        },
        bytes: Bytes {
            events: at.bytes.events + 16,
            near: at.bytes.near + recording::bytes_of(form, passed as u32) as usize,
            ..at.bytes
        },
        going: goes_on(left, near.sum),
        ..at
    }
}

// A finished scan ignores near samples: they are not read.
fn take(
    header: Header,
    session: Session,
    at: Silence,
    count: u32,
    first: u64,
    near: &[u8],
    samples: &mut [f32],
    levels: &mut [f32],
) -> Silence
    requires { Calm session at × (at.number < 2 ^ 32 - 1) × (at.bytes.events + 16 < 2 ^ 64) × Supplied header.form at.used.near header.near count at.bytes.near near.now samples.old × (length levels.old ≡ near_len (due session.scan)) }
    ensures { (events far : List ℕ) (e : List Float) → Before header events far near.now at (event.Near count first) → Plays header session events far near.now at e levels.old result e levels.new }
{
    let form = header.form;
    let scan = session.scan;
    let g = scan.geometry;
    let verdict = scan.verdict;
    let before = at.near;
    let n = count as usize;
    let i = at.bytes.near;
    if rules::finished(verdict) {
        return took(form, at, count, first, before, n);
    }
    replay_near::decode_first(form, &near[i..], n, samples);
    let walked = scan_runs::walk(g, before, levels, &samples[0..n], first);
    let after = walked.near;
    took(form, at, count, first, after, walked.passed)
}

pub fn event(
    header: Header,
    session: Session,
    at: Silence,
    count: u32,
    first: u64,
    near: &[u8],
    samples: &mut [f32],
    levels: &mut [f32],
) -> Silence
    requires { Calm session at × (at.number < 2 ^ 32 - 1) × (at.bytes.events + 16 < 2 ^ 64) × (at.bytes.near ≤ length near.now) × (count ≤ 4096) × Holds near.now samples.old × (length levels.old ≡ near_len (due session.scan)) }
    ensures { (events far : List ℕ) (e : List Float) → Before header events far near.now at (event.Near count first) → Plays header session events far near.now at e levels.old result e levels.new }
{
    let form = header.form;
    let i = at.bytes.near;
    let s = supplies::of(form, at.used.near, header.near, count, &near[i..], true);
    match s {
        Supply::AtHand => take(header, session, at, count, first, near, samples, levels),
        Supply::Awaited | Supply::Lacking => crate::halt(at),
    }
}
