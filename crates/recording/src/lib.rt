// Reads a recording: its header, its events and their samples.
#![tactic(auto)]

ghost use Rattle.std.specs.Prelude.{◌≡◌, ℕ, ◌+◌, ◌/◌, ◌^◌, ◌≤◌, ◌<◌, length, get_or, Some, None, Float};
ghost use Rattle.recording.specs.Bytes.{number_at};
ghost use Rattle.recording.specs.Recording;
ghost use Rattle.answers.specs.Pick.{pick, both};
ghost use Rattle.recording.specs.Recording.{sibling_of, shape_at, header_at, opened, header_length, offset_of, some_samples, only_if, event_of, event_at};
ghost use Rattle.recording.specs.Samples;
ghost use Rattle.recording.specs.Samples.{sample_at, bytes_of, samples_of, decoded, decoded_count, admitted, all_used};

// How a recording stores its samples: Plain is the form of the scope paper, with 24 bytes of header and f32 samples. Its siblings have 28 bytes of header, and
// f32 samples (Floats) or signed 16-bit ones (Shorts).
#[derive(Clone, Copy, PartialEq, Eq, Debug)]
pub enum Form {
    Plain,
    Floats,
    Shorts,
}

// far and near are totals of samples.
#[derive(Clone, Copy)]
pub struct Header {
    pub form: Form,
    pub rate: u32,
    pub ceiling: u32,
    pub events: u32,
    pub far: u32,
    pub near: u32,
}

#[derive(Clone, Copy)]
pub enum Event {
    Far { count: u32 },
    Near { count: u32, first: u64 },
    Rearm,
    DiscardNear,
    Unconfident,
    Interior { alignment: u32, delay: u64 },
    Edge { alignment: u32, delay: u64 },
    Discontinuity,
}

// How many samples of each input the events so far have used.
#[derive(Clone, Copy)]
pub struct Used {
    pub far: u64,
    pub near: u64,
}

// How many bytes the two sample inputs have.
#[derive(Clone, Copy)]
pub struct Lengths {
    pub far: u64,
    pub near: u64,
}

// Reads the number in two bytes.
pub fn u16_at(s: &[u8], at: usize) -> u16
    requires { at + 2 ≤ length s.now }
    ensures { result ≡ number_at 2 s.now at }
{
    u16::from_le_bytes([s[at], s[at + 1]])
}

pub fn u32_at(s: &[u8], at: usize) -> u32
    requires { at + 4 ≤ length s.now }
    ensures { result ≡ number_at 4 s.now at }
{
    u32::from_le_bytes([s[at], s[at + 1], s[at + 2], s[at + 3]])
}

fn u64_at(s: &[u8], at: usize) -> u64
    requires { at + 8 ≤ length s.now }
    ensures { result ≡ number_at 8 s.now at }
{
    u64::from_le_bytes([
        s[at],
        s[at + 1],
        s[at + 2],
        s[at + 3],
        s[at + 4],
        s[at + 5],
        s[at + 6],
        s[at + 7],
    ])
}

// ---- the header

// Gives the form of a sibling with this sample kind.
fn sibling(kind: u32) -> Option<Form>
    ensures { result ≡ sibling_of kind }
{
    match kind {
        1 => Some(Form::Floats),
        2 => Some(Form::Shorts),
        _ => None,
    }
}

// Gives the form that a header tells, if it tells one.
fn shape_at(s: &[u8]) -> Option<Form>
    requires { 24 ≤ length s.now }
    ensures { result ≡ shape_at s.now }
{
    match u32_at(s, 12) {
        24 => Some(Form::Plain),
        28 if 28 <= s.len() => sibling(u32_at(s, 24)),
        _ => None,
    }
}

fn header_at(form: Form, s: &[u8]) -> Header
    requires { 24 ≤ length s.now }
    ensures { result ≡ header_at form s.now }
{
    Header {
        form,
        rate: u32_at(s, 0),
        ceiling: u32_at(s, 4),
        events: u32_at(s, 8),
        far: u32_at(s, 16),
        near: u32_at(s, 20),
    }
}

// Reads the header at the start of the event input; None is a bad header.
pub fn open(s: &[u8]) -> Option<Header>
    ensures { result ≡ opened s.now }
{
    if s.len() < 24
        || !answers::allowed_rate(u32_at(s, 0))
        || !answers::allowed_ceiling(u32_at(s, 4))
    {
        return None;
    }
    let form = shape_at(s)?;
    Some(header_at(form, s))
}

// Tells from its first 24 bytes how many a header has. A host reads 24, and 4 more only where this says so.
pub fn header_length(s: &[u8]) -> usize
    ensures { result ≡ header_length s.now }
{
    if 24 <= s.len() && u32_at(s, 12) == 28 {
        28
    } else {
        24
    }
}

// Gives the offset of the events, which is the header's length.
pub fn offset_of(form: Form) -> usize
    ensures { result ≡ offset_of form }
{
    match form {
        Form::Plain => 24,
        Form::Floats | Form::Shorts => 28,
    }
}

// ---- events

fn unused(count: u32, number: u64) -> bool
    ensures { result ≡ both (Recording.unused count) (Recording.unused number) }
{
    count == 0 && number == 0
}

// Tells whether one event may have this many samples.
fn some_samples(count: u32) -> bool
    ensures { result ≡ some_samples count }
{
    answers::within(1, 4096, count)
}

// Reads an event of kind 1, which leaves the number unused.
fn far_event(count: u32, number: u64) -> Option<Event>
    ensures { result ≡ only_if (both (some_samples count) (Recording.unused number)) (Event.Far count) }
{
    if some_samples(count) && number == 0 {
        Some(Event::Far { count })
    } else {
        None
    }
}

// Reads an event of kind 3, 4, 5 or 8, which leaves both fields unused.
fn plain_event(count: u32, number: u64, event: Event) -> Option<Event>
    ensures { result ≡ only_if (both (Recording.unused count) (Recording.unused number)) event }
{
    unused(count, number).then_some(event)
}

// Reads an event from its three fields; None is a bad event.
fn event_of(kind: u32, count: u32, number: u64) -> Option<Event>
    ensures { result ≡ event_of kind count number }
{
    match kind {
        1 => far_event(count, number),
        2 => some_samples(count).then_some(Event::Near {
            count,
            first: number,
        }),
        3 => plain_event(count, number, Event::Rearm),
        4 => plain_event(count, number, Event::DiscardNear),
        5 => plain_event(count, number, Event::Unconfident),
        6 => Some(Event::Interior {
            alignment: count,
            delay: number,
        }),
        7 => Some(Event::Edge {
            alignment: count,
            delay: number,
        }),
        8 => plain_event(count, number, Event::Discontinuity),
        _ => None,
    }
}

// Reads the event in the 16 bytes of s from at on; None is a bad event.
pub fn event_at(s: &[u8], at: usize) -> Option<Event>
    ensures { result ≡ event_at s.now at }
{
    if s.len() < 16 || s.len() - 16 < at {
        return None;
    }
    event_of(u32_at(s, at), u32_at(s, at + 4), u64_at(s, at + 8))
}

// Gives how many bytes a sample has.
fn width(form: Form) -> usize
    ensures { (result ≡ Samples.width form) × (0 < result) × (result ≤ 4) }
{
    match form {
        Form::Plain | Form::Floats => 4,
        Form::Shorts => 2,
    }
}

// Gives how many bytes so many samples have.
pub fn bytes_of(form: Form, samples: u32) -> u64
    ensures { result ≡ bytes_of form samples }
{
    width(form) as u64 * u64::from(samples)
}

// Gives the samples that are used with this event's, if they are within the total and their bytes are there.
fn supplied(form: Form, used: u64, count: u32, total: u32, length: u64) -> Option<u64>
    ensures { result ≡ pick (Samples.supplied form (used + count) total length) (Some (used + count)) None }
{
    let samples = used.saturating_add(u64::from(count));
    if samples <= u64::from(total) && bytes_of(form, samples as u32) <= length {
        Some(samples)
    } else {
        None
    }
}

// Gives what is used after the event, or None if the totals or the bytes of the two sample inputs do not allow it.
pub fn admit(header: Header, lengths: Lengths, used: Used, event: Event) -> Option<Used>
    ensures { result ≡ admitted header lengths used event }
{
    let form = header.form;
    match event {
        Event::Far { count } => {
            let far = supplied(form, used.far, count, header.far, lengths.far)?;
            Some(Used { far, ..used })
        }
        Event::Near { count, first: _ } => {
            let near = supplied(form, used.near, count, header.near, lengths.near)?;
            Some(Used { near, ..used })
        }
        Event::Rearm
        | Event::DiscardNear
        | Event::Unconfident
        | Event::Interior { .. }
        | Event::Edge { .. }
        | Event::Discontinuity => Some(used),
    }
}

// Tells whether the events have used every sample that the header announces. If they have not, the log says `bad totals`.
pub fn all_used(header: Header, used: Used) -> bool
    ensures { result ≡ all_used header used }
{
    u64::from(header.far) <= used.far && u64::from(header.near) <= used.near
}

fn part(piece: &[f32], at: usize, count: u32) -> &[f32]
    ensures { result.now ≡ Samples.part piece.now at count }
{
    let n = count as usize;
    if at <= piece.len() && n <= piece.len() - at {
        &piece[at..at + n]
    } else {
        &[]
    }
}

// Gives the samples of an event: a part of the far or of the near piece, of which f and n samples have been used already.
pub fn samples<'a>(far: &'a [f32], near: &'a [f32], event: Event, f: usize, n: usize) -> &'a [f32]
    ensures { result.now ≡ samples_of far.now near.now event f n }
{
    match event {
        Event::Far { count } => part(far, f, count),
        Event::Near { count, first: _ } => part(near, n, count),
        Event::Rearm
        | Event::DiscardNear
        | Event::Unconfident
        | Event::Interior { .. }
        | Event::Edge { .. }
        | Event::Discontinuity => &[],
    }
}

// Fills out from its start with the samples that `sample` reads one by one, and answers how many.
fn decode_by<F: Fn(usize) -> f32>(form: Form, s: &[u8], out: &mut [f32], sample: F) -> usize
    requires readable { (k : ℕ) → k < length s.now / Samples.width form → F.pre sample k }
    requires reads { (k : ℕ) (x : Float) → F.post sample k x → x ≡ sample_at form s.now k }
    ensures { (result ≡ decoded_count form s.now out.old) × (out.new ≡ decoded form s.now out.old) }
{
    let n = out.len().min(s.len() / width(form));
    for (k, place) in out[..n].iter_mut().enumerate() {
        *place = sample(k);
    }
    n
}

// Fills out from its start with the samples that the bytes s hold, and answers how many.
pub fn decode(form: Form, s: &[u8], out: &mut [f32]) -> usize
    ensures { (result ≡ decoded_count form s.now out.old) × (out.new ≡ decoded form s.now out.old) }
{
    match form {
        Form::Plain | Form::Floats => decode_by(
            form,
            s,
            out,
            |k| floats::bits::float32(u32_at(s, 4 * k)),
        ),
        Form::Shorts => decode_by(form, s, out, |k| recording_shorts::value(u16_at(s, 2 * k))),
    }
}
