// Makes a recording of two sounds: its header, and event by event.
#![tactic(auto)]

ghost use Rattle.std.specs.Prelude.{◌≡◌, ◌∷◌, [], ◌++◌, ◌+◌, ◌%◌, ◌≤◌, ◌<◌, leb};
ghost use Rattle.answers.specs.Numbers.{limit};
ghost use Rattle.recording.specs.Bytes.{bytes};
ghost use Rattle.recording.specs.Recording.{header_bytes};
ghost use Rattle.recording_make.specs.Making.{form_of, piece_of, events_of, plan_of, planned, same_kind, fitting, fars_turn, piece_from, step_with, step_of, entry_bytes, kind_number, room_behind};

use recording::{Form, Header, Used};
use wav::{Kind, Sound};

// What is to be made: near sample k has index start + k.
#[derive(Clone, Copy)]
pub struct Plan {
    pub header: Header,
    pub start: u64,
}

// Why two sounds make no recording: one has 16-bit samples and the other floats; their rates differ, or are outside the table; the ceiling is outside it; an index
// would pass the limit.
#[derive(Clone, Copy, Debug)]
pub enum Misfit {
    OtherKinds,
    OtherRates,
    OtherCeiling,
    OtherStart,
}

// The next event: samples that were played, samples that were heard, or none.
#[derive(Clone, Copy)]
pub enum Next {
    Played { count: u32 },
    Heard { count: u32, first: u64 },
    Over,
}

// It, and what is used behind it.
#[derive(Clone, Copy)]
pub struct Step {
    pub next: Next,
    pub used: Used,
}

fn form_of(kind: Kind) -> Form
    ensures { result ≡ form_of kind }
{
    match kind {
        Kind::Short => Form::Shorts,
        Kind::Single => Form::Plain,
    }
}

fn same_kind(a: Kind, b: Kind) -> bool
    ensures { result ≡ same_kind a b }
{
    match a {
        Kind::Short => match b {
            Kind::Short => true,
            Kind::Single => false,
        },
        Kind::Single => match b {
            Kind::Short => false,
            Kind::Single => true,
        },
    }
}

fn events_of(rate: u32, samples: u32) -> u32
    requires { (8000 ≤ rate) × (rate ≤ 192000) }
    ensures { (result ≡ events_of (piece_of rate) samples) × (result ≤ 53687092) }
{
    let piece = rate as u64 / 100;
    ((samples as u64 + (piece - 1)) / piece) as u32
}

// Tells whether so many samples from this index on stay within the limit.
fn within_limit(start: u64, samples: u32) -> bool
    ensures { result ≡ leb (start + samples) limit }
{
    if answers::LIMIT < start {
        return false;
    }
    start + samples as u64 <= answers::LIMIT
}

fn plan_of(form: Form, rate: u32, ceiling: u32, far: u32, near: u32, start: u64) -> Plan
    requires { (8000 ≤ rate) × (rate ≤ 192000) }
    ensures { result ≡ plan_of form rate ceiling far near start }
{
    Plan {
        header: Header {
            form,
            rate,
            ceiling,
            events: events_of(rate, far) + events_of(rate, near),
            far,
            near,
        },
        start,
    }
}

// Plans a recording of two sounds.
pub fn plan_from(far: Sound, near: Sound, ceiling: u32, start: u64) -> Result<Plan, Misfit>
    ensures { result ≡ planned far near ceiling start }
{
    let kind = far.kind;
    let other = near.kind;
    if !same_kind(kind, other) {
        return Err(Misfit::OtherKinds);
    }
    let rate = far.rate;
    if rate != near.rate {
        return Err(Misfit::OtherRates);
    }
    if !answers::allowed_rate(rate) {
        return Err(Misfit::OtherRates);
    }
    if !answers::allowed_ceiling(ceiling) {
        return Err(Misfit::OtherCeiling);
    }
    if !within_limit(start, near.frames) {
        return Err(Misfit::OtherStart);
    }
    let form = form_of(kind);
    Ok(plan_of(form, rate, ceiling, far.frames, near.frames, start))
}

fn fits(p: Plan) -> bool
    ensures { result ≡ fitting p }
{
    let h = p.header;
    if !answers::allowed_rate(h.rate) {
        return false;
    }
    within_limit(p.start, h.near)
}

fn piece_from(rate: u32, samples: u32, used: u64) -> u32
    requires { used < samples }
    ensures { result ≡ piece_from rate samples used }
{
    (rate as u64 / 100).min(samples as u64 - used) as u32
}

fn fars_turn(h: Header, used: Used) -> bool
    ensures { result ≡ fars_turn h used }
{
    if h.far as u64 <= used.far {
        return false;
    }
    if used.far <= used.near {
        return true;
    }
    h.near as u64 <= used.near
}

fn over(used: Used) -> Step
    ensures { result ≡ step_with Next.Over used.far used.near }
{
    Step {
        next: Next::Over,
        used,
    }
}

// Gives the event behind those that have used so many samples, and what is used behind it.
pub fn next_event(p: Plan, used: Used) -> Step
    ensures { result ≡ step_of p used }
{
    if !fits(p) {
        return over(used);
    }
    let h = p.header;
    if fars_turn(h, used) {
        let count = piece_from(h.rate, h.far, used.far);
        return Step {
            next: Next::Played { count },
            used: Used {
                far: used.far + count as u64,
                near: used.near,
            },
        };
    }
    if h.near as u64 <= used.near {
        return over(used);
    }
    let count = piece_from(h.rate, h.near, used.near);
    Step {
        next: Next::Heard {
            count,
            first: p.start + used.near,
        },
        used: Used {
            far: used.far,
            near: used.near + count as u64,
        },
    }
}

// ---- bytes

fn entry_bytes(kind: u32, count: u32, number: u64) -> [u8; 16]
    ensures { result ≡ bytes 4 kind ++ bytes 4 count ++ bytes 8 number }
{
    [
        (kind % 256) as u8,
        (kind / 256 % 256) as u8,
        (kind / 256 / 256 % 256) as u8,
        (kind / 256 / 256 / 256 % 256) as u8,
        (count % 256) as u8,
        (count / 256 % 256) as u8,
        (count / 256 / 256 % 256) as u8,
        (count / 256 / 256 / 256 % 256) as u8,
        (number % 256) as u8,
        (number / 256 % 256) as u8,
        (number / 256 / 256 % 256) as u8,
        (number / 256 / 256 / 256 % 256) as u8,
        (number / 256 / 256 / 256 / 256 % 256) as u8,
        (number / 256 / 256 / 256 / 256 / 256 % 256) as u8,
        (number / 256 / 256 / 256 / 256 / 256 / 256 % 256) as u8,
        (number / 256 / 256 / 256 / 256 / 256 / 256 / 256 % 256) as u8,
    ]
}

// Gives the bytes of an event.
pub fn event_bytes(next: Next) -> [u8; 16]
    ensures { result ≡ entry_bytes next }
{
    match next {
        Next::Played { count } => entry_bytes(1, count, 0),
        Next::Heard { count, first } => entry_bytes(2, count, first),
        Next::Over => [0; 16],
    }
}

#[derive(Clone, Copy)]
struct Quad(u8, u8, u8, u8);

fn four(v: u32) -> Quad
    ensures { (result.0 ∷ result.1 ∷ result.2 ∷ result.3 ∷ []) ≡ bytes 4 v }
{
    Quad(
        (v % 256) as u8,
        (v / 256 % 256) as u8,
        (v / 256 / 256 % 256) as u8,
        (v / 256 / 256 / 256 % 256) as u8,
    )
}

// The seventh number of a header; the form of the scope paper has none.
fn kind_number(form: Form) -> u32
    ensures { result ≡ kind_number form }
{
    match form {
        Form::Plain => 0,
        Form::Floats => 1,
        Form::Shorts => 2,
    }
}

// Gives the bytes of a header. Those of the scope paper's form are the first 24.
pub fn header_bytes(h: Header) -> [u8; 28]
    ensures { result ≡ header_bytes h ++ room_behind h.form }
{
    let form = h.form;
    let rate = four(h.rate);
    let ceiling = four(h.ceiling);
    let events = four(h.events);
    let offset = four(recording::offset_of(form) as u32);
    let far = four(h.far);
    let near = four(h.near);
    let kind = four(kind_number(form));
    [
        rate.0, rate.1, rate.2, rate.3, ceiling.0, ceiling.1, ceiling.2, ceiling.3, events.0,
        events.1, events.2, events.3, offset.0, offset.1, offset.2, offset.3, far.0, far.1, far.2,
        far.3, near.0, near.1, near.2, near.3, kind.0, kind.1, kind.2, kind.3,
    ]
}
