// The second pass: event by event, an entry and its samples into the outputs, all or none of it.
ghost use Rattle.std.specs.Prelude.{◌≡◌, true, ◌<◌, length};
ghost use Rattle.convert_side.specs.Side.{Fits};
ghost use Rattle.convert_host.specs.Work.{AllFit, Rooms};

use convert_side::{Ends, Side, Stored};
use pipes::{named, rooms};
use recording::{Event, Form, Header, Lengths, Used};
use recording_convert::Direction;
use recording_store::Unstored;
use std::fs::File;

// Three open files.
#[derive(Clone, Copy)]
pub struct Files<'a> {
    pub events: &'a File,
    pub far: &'a File,
    pub near: &'a File,
}

// Going: so far all was converted. FarStrange, NearStrange: that sample of the event is no sample of the other kind. Changed: an input is not what it was in the first pass.
#[derive(Clone, Copy)]
pub enum State {
    Going,
    FarStrange(u32),
    NearStrange(u32),
    Changed,
}

#[derive(Clone, Copy)]
pub struct Work {
    pub events: Side,
    pub far: Side,
    pub near: Side,
    pub number: u32,
    pub used: Used,
    pub state: State,
}

// The files of the three sides.
#[derive(Clone, Copy)]
struct Sides<'a> {
    events: Ends<'a>,
    far: Ends<'a>,
    near: Ends<'a>,
}

fn from_and_to<'a>(from: &'a File, to: &'a File) -> Ends<'a> {
    Ends {
        from: Some(from),
        to: Some(to),
    }
}

fn sides_of<'a>(from: Files<'a>, to: Files<'a>) -> Sides<'a> {
    Sides {
        events: from_and_to(from.events, to.events),
        far: from_and_to(from.far, to.far),
        near: from_and_to(from.near, to.near),
    }
}

// Rooms are lent in pairs, one of the input and one of the output: er and eo for the events, fr and fo for far samples, nr and no for near ones.

fn stopped(work: Work, state: State) -> Work
    requires { AllFit work }
    ensures { AllFit result }
{
    let events = work.events;
    let far = work.far;
    let near = work.near;
    let used = work.used;
    Work {
        events,
        far,
        near,
        number: work.number,
        used,
        state,
    }
}

// The event is whole in the outputs.
fn entered(work: Work, events: Side, far: Side, near: Side, used: Used) -> Work
    requires { (Fits events) × (Fits far) × (Fits near) }
    ensures { AllFit result }
{
    Work {
        events,
        far,
        near,
        number: work.number.saturating_add(1),
        used,
        state: State::Going,
    }
}

fn entry_at(side: Side, room: &[u8]) -> Option<Event>
    requires { (Fits side) × (length room.now ≡ 65536) }
{
    let input = side.input;
    let at = input.at;
    let end = input.end;
    recording::event_at(&room[at..end], 0)
}

fn with_events(work: Work, events: Side) -> Work
    requires { (AllFit work) × (Fits events) }
    ensures { AllFit result }
{
    let far = work.far;
    let near = work.near;
    let state = work.state;
    let used = work.used;
    Work {
        events,
        far,
        near,
        number: work.number,
        used,
        state,
    }
}

fn far_stopped(work: Work, far: Side, state: State) -> Work
    requires { (AllFit work) × (Fits far) }
    ensures { AllFit result }
{
    let events = work.events;
    let near = work.near;
    let used = work.used;
    Work {
        events,
        far,
        near,
        number: work.number,
        used,
        state,
    }
}

fn near_stopped(work: Work, near: Side, state: State) -> Work
    requires { (AllFit work) × (Fits near) }
    ensures { AllFit result }
{
    let events = work.events;
    let far = work.far;
    let used = work.used;
    Work {
        events,
        far,
        near,
        number: work.number,
        used,
        state,
    }
}

// ---- an event

// Without samples.
fn plain_turn(work: Work, used: Used, er: &[u8], eo: &mut [u8]) -> Work
    requires { (AllFit work) × (length er.now ≡ 65536) × (length eo.old ≡ 65536) }
    ensures { AllFit result }
{
    let events = convert_side::carry_entry(work.events, er, eo);
    let far = work.far;
    let near = work.near;
    entered(work, events, far, near, used)
}

fn far_done(work: Work, stored: Stored, used: Used, er: &[u8], eo: &mut [u8]) -> Work
    requires { (AllFit work) × (Fits stored.side) × (length er.now ≡ 65536) × (length eo.old ≡ 65536) }
    ensures { AllFit result }
{
    let side = stored.side;
    let near = work.near;
    let storing = stored.storing;
    match storing {
        Err(Unstored::NoRoom) => far_stopped(work, side, State::Changed),
        Err(Unstored::StrangeAt(sample)) => far_stopped(work, side, State::FarStrange(sample)),
        Ok(_) => entered(
            work,
            convert_side::carry_entry(work.events, er, eo),
            side,
            near,
            used,
        ),
    }
}

fn near_done(work: Work, stored: Stored, used: Used, er: &[u8], eo: &mut [u8]) -> Work
    requires { (AllFit work) × (Fits stored.side) × (length er.now ≡ 65536) × (length eo.old ≡ 65536) }
    ensures { AllFit result }
{
    let side = stored.side;
    let far = work.far;
    let storing = stored.storing;
    match storing {
        Err(Unstored::NoRoom) => near_stopped(work, side, State::Changed),
        Err(Unstored::StrangeAt(sample)) => near_stopped(work, side, State::NearStrange(sample)),
        Ok(_) => entered(
            work,
            convert_side::carry_entry(work.events, er, eo),
            far,
            side,
            used,
        ),
    }
}

// The samples that an event has.
#[derive(Clone, Copy)]
enum Samples {
    OfFar(u32),
    OfNear(u32),
    Without,
}

fn samples_of(event: Event) -> Samples {
    match event {
        Event::Far { count } => Samples::OfFar(count),
        Event::Near { count, first: _ } => Samples::OfNear(count),
        Event::Rearm => Samples::Without,
        Event::DiscardNear => Samples::Without,
        Event::Unconfident => Samples::Without,
        Event::Interior {
            alignment: _,
            delay: _,
        } => Samples::Without,
        Event::Edge {
            alignment: _,
            delay: _,
        } => Samples::Without,
        Event::Discontinuity => Samples::Without,
    }
}

fn event_turn(
    direction: Direction,
    form: Form,
    work: Work,
    samples: Samples,
    used: Used,
    sides: &Sides<'_>,
    er: &[u8],
    eo: &mut [u8],
    fr: &mut [u8],
    fo: &mut [u8],
    nr: &mut [u8],
    no: &mut [u8],
) -> Work
    requires { (AllFit work) × (Rooms er.now eo.old fr.old fo.old nr.old no.old) }
    ensures { AllFit result }
{
    match samples {
        Samples::OfFar(count) => far_done(
            work,
            convert_side::convert(direction, form, work.far, &sides.far, count, fr, fo),
            used,
            er,
            eo,
        ),
        Samples::OfNear(count) => near_done(
            work,
            convert_side::convert(direction, form, work.near, &sides.near, count, nr, no),
            used,
            er,
            eo,
        ),
        Samples::Without => plain_turn(work, used, er, eo),
    }
}

fn admitted_turn(
    direction: Direction,
    header: Header,
    work: Work,
    event: Event,
    admission: Option<Used>,
    sides: &Sides<'_>,
    er: &[u8],
    eo: &mut [u8],
    fr: &mut [u8],
    fo: &mut [u8],
    nr: &mut [u8],
    no: &mut [u8],
) -> Work
    requires { (AllFit work) × (Rooms er.now eo.old fr.old fo.old nr.old no.old) }
    ensures { AllFit result }
{
    let form = header.form;
    match admission {
        None => stopped(work, State::Changed),
        Some(used) => event_turn(
            direction,
            form,
            work,
            samples_of(event),
            used,
            sides,
            er,
            eo,
            fr,
            fo,
            nr,
            no,
        ),
    }
}

// The next entry is at hand, if it is there, and there is room for it.
fn ready(work: Work, files: &Ends<'_>, er: &mut [u8], eo: &[u8]) -> Work
    requires { (AllFit work) × (length er.old ≡ 65536) × (length eo.now ≡ 65536) }
    ensures { AllFit result }
{
    let events = convert_side::make_room(
        convert_side::fill(work.events, 16, files.from, er),
        16,
        files.to,
        eo,
    );
    with_events(work, events)
}

// One event.
fn turn(
    direction: Direction,
    header: Header,
    lengths: Lengths,
    before: Work,
    sides: &Sides<'_>,
    er: &mut [u8],
    eo: &mut [u8],
    fr: &mut [u8],
    fo: &mut [u8],
    nr: &mut [u8],
    no: &mut [u8],
) -> Work
    requires { (AllFit before) × (Rooms er.old eo.old fr.old fo.old nr.old no.old) }
    ensures { AllFit result }
{
    let work = ready(before, &sides.events, er, eo);
    match entry_at(work.events, er) {
        None => stopped(work, State::Changed),
        Some(event) => admitted_turn(
            direction,
            header,
            work,
            event,
            recording::admit(header, lengths, work.used, event),
            sides,
            er,
            eo,
            fr,
            fo,
            nr,
            no,
        ),
    }
}

fn is_going(state: State) -> bool {
    match state {
        State::Going => true,
        State::FarStrange(_) => false,
        State::NearStrange(_) => false,
        State::Changed => false,
    }
}

fn goes_on(number: u32, events: u32, work: Work) -> bool
    ensures { result ≡ true → (number < events) × (number < 4294967295) }
{
    if events <= number {
        return false;
    }
    let state = work.state;
    is_going(state)
}

// Event by event.
fn all(
    direction: Direction,
    header: Header,
    lengths: Lengths,
    first: Work,
    sides: &Sides<'_>,
    er: &mut [u8],
    eo: &mut [u8],
    fr: &mut [u8],
    fo: &mut [u8],
    nr: &mut [u8],
    no: &mut [u8],
) -> Work
    requires { (AllFit first) × (Rooms er.old eo.old fr.old fo.old nr.old no.old) }
    ensures { (AllFit result) × (Rooms er.new eo.new fr.new fo.new nr.new no.new) }
{
    let mut work = first;
    let mut number: u32 = 0;
    while goes_on(number, header.events, work) {
        work = turn(
            direction, header, lengths, work, sides, er, eo, fr, fo, nr, no,
        );
        number = number + 1;
    }
    work
}

// ---- from the header to the end

// What is held is written.
fn drained(work: Work, sides: &Sides<'_>, eo: &[u8], fo: &[u8], no: &[u8]) -> Work
    requires { (AllFit work) × (length eo.now ≡ 65536) × (length fo.now ≡ 65536) × (length no.now ≡ 65536) }
{
    let events = convert_side::drain(work.events, sides.events.to, eo);
    let far = convert_side::drain(work.far, sides.far.to, fo);
    let near = convert_side::drain(work.near, sides.near.to, no);
    let state = work.state;
    let used = work.used;
    Work {
        events,
        far,
        near,
        number: work.number,
        used,
        state,
    }
}

// A file from that place on, of which no byte past the announced end is read.
fn side(from: &File, at: u64, most: u64) -> Side
    ensures { Fits result }
{
    match named::go_to(from, at) {
        Ok(()) => convert_side::fresh(most),
        Err(why) => convert_side::unreadable(why),
    }
}

fn first(header: Header, from: Files<'_>, held: usize) -> Work
    ensures { AllFit result }
{
    let form = header.form;
    let offset = recording::offset_of(form) as u64;
    let far = recording::bytes_of(form, header.far);
    let near = recording::bytes_of(form, header.near);
    let entries = side(from.events, offset, 16 * header.events as u64);
    Work {
        events: convert_side::holds(entries, held),
        far: side(from.far, 0, far),
        near: side(from.near, 0, near),
        number: 0,
        used: Used { far: 0, near: 0 },
        state: State::Going,
    }
}

fn write_in(
    direction: Direction,
    header: Header,
    lengths: Lengths,
    from: Files<'_>,
    to: Files<'_>,
    er: &mut [u8],
    eo: &mut [u8],
    fr: &mut [u8],
    fo: &mut [u8],
    nr: &mut [u8],
    no: &mut [u8],
) -> Work
    requires { Rooms er.old eo.old fr.old fo.old nr.old no.old }
{
    let held = recording_store::write_header(direction, header, eo);
    let sides = sides_of(from, to);
    let last = all(
        direction,
        header,
        lengths,
        first(header, from, held),
        &sides,
        er,
        eo,
        fr,
        fo,
        nr,
        no,
    );
    drained(last, &sides, eo, fo, no)
}

// Converts a whole recording of three open files into three others, and tells where it stands at the end.
pub fn write(
    direction: Direction,
    header: Header,
    lengths: Lengths,
    from: Files<'_>,
    to: Files<'_>,
) -> Work {
    let mut er = rooms::large();
    let mut eo = rooms::large();
    let mut fr = rooms::large();
    let mut fo = rooms::large();
    let mut nr = rooms::large();
    let mut no = rooms::large();
    write_in(
        direction, header, lengths, from, to, &mut er, &mut eo, &mut fr, &mut fo, &mut nr, &mut no,
    )
}
