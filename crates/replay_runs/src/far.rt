// A far event.
ghost use Rattle.std.specs.Prelude.{◌≡◌, List, ℕ, ◌+◌, ◌-◌, ◌^◌, ◌≤◌, ◌<◌, Float, length};
ghost use Rattle.scan.specs.Bins.{full_slack, envelope_len};
ghost use Rattle.scan.specs.State.{due};
ghost use Rattle.recording.specs.Samples.{bytes_of};
ghost use Rattle.recording.specs.declared.Event.TheVariants as event;
ghost use Rattle.replay_near.specs.Telling.{Holds};
ghost use Rattle.replay_runs.specs.Silences.{Calm, Before, Plays, Supplied, heard_on};

use crate::Silence;
use recording::{Form, Header, Used};
use replay::Session;
use replay_entry::{Supply, supplies};
use replay_stream::Bytes;
use scan::Far;

fn heard(form: Form, at: Silence, far: Far, count: u32) -> Silence
    requires { (at.number < 2 ^ 32 - 1) × (at.bytes.events + 16 < 2 ^ 64) × (at.bytes.far + bytes_of form count < 2 ^ 64) × (at.used.far + count < 2 ^ 64) }
    ensures { result ≡ heard_on at far count (bytes_of form count) }
{
    Silence {
        number: at.number + 1,
        index: 0,
        left: 0,
        far,
        used: Used {
            far: at.used.far + count as u64,
            ..at.used
        },
        bytes: Bytes {
            events: at.bytes.events + 16,
            far: at.bytes.far + recording::bytes_of(form, count) as usize,
            ..at.bytes
        },
        going: floats::is_finite(far.sum),
        ..at
    }
}

// The samples are one push; the loop ends before one that is refused.
fn hear(
    header: Header,
    session: Session,
    at: Silence,
    count: u32,
    far: &[u8],
    samples: &mut [f32],
    envelope: &mut [f32],
) -> Silence
    requires { Calm session at × (at.number < 2 ^ 32 - 1) × (at.bytes.events + 16 < 2 ^ 64) × Supplied header.form at.used.far header.far count at.bytes.far far.now samples.old × (length envelope.old ≡ envelope_len full_slack (due session.scan)) }
    ensures { (events near : List ℕ) (l : List Float) → Before header events far.now near at (event.Far count) → Plays header session events far.now near at envelope.old l result envelope.new l }
{
    let form = header.form;
    let scan = session.scan;
    let g = scan.geometry;
    let before = at.far;
    let n = count as usize;
    let f = at.bytes.far;
    if before.accepted + count as u64 > answers::LIMIT {
        return crate::halt(at);
    }
    replay_near::decode_first(form, &far[f..], n, samples);
    if !folds::all_finite(&samples[0..n]) {
        return crate::halt(at);
    }
    let after = scan_push::far::hear_all(scan_calls::SLACK, g, before, envelope, &samples[0..n]);
    heard(form, at, after, count)
}

pub fn event(
    header: Header,
    session: Session,
    at: Silence,
    count: u32,
    far: &[u8],
    samples: &mut [f32],
    envelope: &mut [f32],
) -> Silence
    requires { Calm session at × (at.number < 2 ^ 32 - 1) × (at.bytes.events + 16 < 2 ^ 64) × (at.bytes.far ≤ length far.now) × (count ≤ 4096) × Holds far.now samples.old × (length envelope.old ≡ envelope_len full_slack (due session.scan)) }
    ensures { (events near : List ℕ) (l : List Float) → Before header events far.now near at (event.Far count) → Plays header session events far.now near at envelope.old l result envelope.new l }
{
    let form = header.form;
    let f = at.bytes.far;
    let s = supplies::of(form, at.used.far, header.far, count, &far[f..], true);
    match s {
        Supply::AtHand => hear(header, session, at, count, far, samples, envelope),
        Supply::Awaited | Supply::Lacking => crate::halt(at),
    }
}
