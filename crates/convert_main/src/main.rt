// Converts a recording: `convert_main DIRECTION HOW EVENTS FAR NEAR EVENTS FAR NEAR`, three inputs and then three outputs. DIRECTION is to-floats or to-shorts; HOW is new, and no output
// may be there, or over. `./convert` is its front, and sees to it that no output is an input or another output.
#![tactic(auto)]

use convert_host::judging::Fault;
use convert_host::writing::{Files, State, Work};
use convert_host::{judging, writing};
use pipes::reason::Reason;
use pipes::{named, rooms, told};
use recording::{Header, Lengths, Used};
use recording_convert::Direction;
use std::fs::File;
use std::process::ExitCode;

// ---- what is said

fn tell(rt: HostRuntime, text: &[u8], number: u64) -> Result<(), Reason> {
    told::write(rt.stdout(), text)?;
    told::number(rt.stdout(), number)
}

// A reader that has gone away has had what it wanted: the status is then that of a program that SIGPIPE ended.
fn unwritten(rt: HostRuntime, why: Reason) -> u64 {
    if told::unread(why) {
        return 141;
    }
    named::fail(rt.stderr(), b"convert", b"standard output", why);
    1
}

fn closed(rt: HostRuntime, good: Result<(), Reason>, text: &[u8]) -> Result<(), Reason> {
    good?;
    told::write(rt.stdout(), text)
}

// The last words of a line.
fn close_line(rt: HostRuntime, good: Result<(), Reason>, text: &[u8], status: u64) -> u64 {
    match closed(rt, good, text) {
        Ok(()) => status,
        Err(why) => unwritten(rt, why),
    }
}

fn tell_two(
    rt: HostRuntime,
    one: &[u8],
    first: u64,
    two: &[u8],
    second: u64,
) -> Result<(), Reason> {
    tell(rt, one, first)?;
    tell(rt, two, second)
}

fn tell_converted(rt: HostRuntime, number: u32, used: Used) -> Result<(), Reason> {
    tell_two(rt, b"converted: ", number as u64, b" events, ", used.far)?;
    tell(rt, b" far and ", used.near)
}

fn converted(rt: HostRuntime, work: Work) -> u64 {
    let good = tell_converted(rt, work.number, work.used);
    close_line(rt, good, b" near samples\n", 0)
}

// The number of the sample on its side.
fn place(before: u64, sample: u32) -> u64 {
    if u64::MAX - before < sample as u64 {
        return u64::MAX;
    }
    before + sample as u64
}

fn tell_event(rt: HostRuntime, number: u32, sample: u32, side: &[u8]) -> Result<(), Reason> {
    tell_two(
        rt,
        b"refused 10: event ",
        number as u64,
        b", sample ",
        sample as u64,
    )?;
    told::write(rt.stdout(), side)
}

// The place of the sample, and that the event is not written, but where nobody reads any more.
fn strange(rt: HostRuntime, number: u32, sample: u32, side: &[u8], before: u64) -> u64 {
    let begun = tell_event(rt, number, sample, side);
    if begun.is_err() {
        return close_line(rt, begun, b"\n", 10);
    }
    let done = told::number(rt.stdout(), place(before, sample));
    let status = close_line(rt, done, b"\n", 10);
    if status == 141 {
        return status;
    }
    named::say(
        rt.stderr(),
        b"convert",
        b"the outputs have what stands before that event and no more: they replay as a bad event",
    );
    status
}

fn refused(rt: HostRuntime, good: Result<(), Reason>, text: &[u8]) -> u64 {
    close_line(rt, good, text, 12)
}

fn other(rt: HostRuntime, direction: Direction) -> u64 {
    match direction {
        Direction::ToFloats => refused(
            rt,
            Ok(()),
            b"refused 12: to-floats takes a recording of sample kind 2\n",
        ),
        Direction::ToShorts => refused(
            rt,
            Ok(()),
            b"refused 12: to-shorts takes a recording with event offset 24\n",
        ),
    }
}

// ---- what it came to

fn unread(rt: HostRuntime, name: &[u8], why: Reason) -> u64 {
    named::fail(rt.stderr(), b"convert", name, why);
    1
}

fn half(rt: HostRuntime) -> u64 {
    named::say(rt.stderr(), b"convert", b"the outputs are not whole");
    1
}

fn unread_half(rt: HostRuntime, name: &[u8], why: Reason) -> u64 {
    named::fail(rt.stderr(), b"convert", name, why);
    half(rt)
}

fn told_state(rt: HostRuntime, work: Work) -> u64 {
    let state = work.state;
    let used = work.used;
    match state {
        State::Going => converted(rt, work),
        State::FarStrange(sample) => {
            strange(rt, work.number, sample, b" of it, far sample ", used.far)
        }
        State::NearStrange(sample) => {
            strange(rt, work.number, sample, b" of it, near sample ", used.near)
        }
        State::Changed => {
            named::say(rt.stderr(), b"convert", b"a file changed while it was read");
            half(rt)
        }
    }
}

// A file that failed is named first: an input, or an output.
fn outcome(
    rt: HostRuntime,
    work: Work,
    events: &[u8],
    far: &[u8],
    near: &[u8],
    to_events: &[u8],
    to_far: &[u8],
    to_near: &[u8],
) -> u64 {
    if let Some(why) = work.events.input.failed {
        return unread_half(rt, events, why);
    }
    if let Some(why) = work.far.input.failed {
        return unread_half(rt, far, why);
    }
    if let Some(why) = work.near.input.failed {
        return unread_half(rt, near, why);
    }
    if !work.events.out.good {
        return unread_half(rt, to_events, work.events.out.reason);
    }
    if !work.far.out.good {
        return unread_half(rt, to_far, work.far.out.reason);
    }
    if !work.near.out.good {
        return unread_half(rt, to_near, work.near.out.reason);
    }
    told_state(rt, work)
}

// ---- files

// A file to be written, or none, and why is said.
fn made(rt: HostRuntime, name: &[u8], over: bool) -> Option<File> {
    if over {
        return named::overwrite(rt, b"convert", name);
    }
    named::create(rt, b"convert", name)
}

// An output that was made and is of no use.
fn unmade(rt: HostRuntime, name: &[u8], over: bool) {
    if !over {
        named::remove(rt, name);
    }
}

// The length of a file, or none, and why is said.
fn length_of(rt: HostRuntime, file: &File, name: &[u8]) -> Option<u64> {
    match named::length_of(file) {
        Ok(length) => Some(length),
        Err(why) => {
            named::fail(rt.stderr(), b"convert", name, why);
            named::say(
                rt.stderr(),
                b"convert",
                b"a recording is read twice, so it must be files and no pipes",
            );
            None
        }
    }
}

// The three files of a recording.
#[derive(Drop)]
struct Three {
    events: File,
    far: File,
    near: File,
}

fn lent(three: &Three) -> Files<'_> {
    Files {
        events: &three.events,
        far: &three.far,
        near: &three.near,
    }
}

// All three outputs are opened before one is written.
fn outputs(
    rt: HostRuntime,
    over: bool,
    to_events: &[u8],
    to_far: &[u8],
    to_near: &[u8],
) -> Option<Three> {
    let events = made(rt, to_events, over)?;
    let Some(far) = made(rt, to_far, over) else {
        unmade(rt, to_events, over);
        return None;
    };
    let Some(near) = made(rt, to_near, over) else {
        unmade(rt, to_events, over);
        unmade(rt, to_far, over);
        return None;
    };
    Some(Three { events, far, near })
}

fn written(
    rt: HostRuntime,
    direction: Direction,
    over: bool,
    header: Header,
    lengths: Lengths,
    from: &Three,
    events: &[u8],
    far: &[u8],
    near: &[u8],
    to_events: &[u8],
    to_far: &[u8],
    to_near: &[u8],
) -> u64 {
    match outputs(rt, over, to_events, to_far, to_near) {
        Some(to) => {
            let work = writing::write(direction, header, lengths, lent(from), lent(&to));
            outcome(rt, work, events, far, near, to_events, to_far, to_near)
        }
        None => 1,
    }
}

// The first pass, and the second where the recording is whole.
fn judged(
    rt: HostRuntime,
    direction: Direction,
    over: bool,
    lengths: Lengths,
    from: &Three,
    events: &[u8],
    far: &[u8],
    near: &[u8],
    to_events: &[u8],
    to_far: &[u8],
    to_near: &[u8],
) -> u64 {
    match judging::judge(direction, &from.events, lengths) {
        Ok(header) => written(
            rt, direction, over, header, lengths, from, events, far, near, to_events, to_far,
            to_near,
        ),
        Err(Fault::BadHeader) => refused(rt, Ok(()), b"refused 12: bad header\n"),
        Err(Fault::OtherForm) => other(rt, direction),
        Err(Fault::BadEvent(number)) => refused(
            rt,
            tell(rt, b"refused 12: bad event ", number as u64),
            b"\n",
        ),
        Err(Fault::BadTotals) => refused(rt, Ok(()), b"refused 12: bad totals\n"),
        Err(Fault::Unread(why)) => unread(rt, events, why),
    }
}

// All three are opened, and each that cannot be is named.
fn inputs(rt: HostRuntime, events: &[u8], far: &[u8], near: &[u8]) -> Option<Three> {
    let e = named::open(rt, b"convert", events);
    let f = named::open(rt, b"convert", far);
    let n = named::open(rt, b"convert", near);
    Some(Three {
        events: e?,
        far: f?,
        near: n?,
    })
}

fn lengths_of(rt: HostRuntime, from: &Three, far: &[u8], near: &[u8]) -> Option<Lengths> {
    let far = length_of(rt, &from.far, far)?;
    let near = length_of(rt, &from.near, near)?;
    Some(Lengths { far, near })
}

fn opened(
    rt: HostRuntime,
    direction: Direction,
    over: bool,
    events: &[u8],
    far: &[u8],
    near: &[u8],
    to_events: &[u8],
    to_far: &[u8],
    to_near: &[u8],
) -> u64 {
    let Some(from) = inputs(rt, events, far, near) else {
        return 1;
    };
    let Some(lengths) = lengths_of(rt, &from, far, near) else {
        return 1;
    };
    match named::seekable(&from.events) {
        Ok(()) => judged(
            rt, direction, over, lengths, &from, events, far, near, to_events, to_far, to_near,
        ),
        Err(why) => unread(rt, events, why),
    }
}

fn named_files(rt: HostRuntime, direction: Direction, over: bool) -> u64 {
    let mut events = rooms::name();
    let mut far = rooms::name();
    let mut near = rooms::name();
    let mut to_events = rooms::name();
    let mut to_far = rooms::name();
    let mut to_near = rooms::name();
    let e = named::argument(rt, b"convert", 3, &mut events);
    let f = named::argument(rt, b"convert", 4, &mut far);
    let n = named::argument(rt, b"convert", 5, &mut near);
    let d = named::argument(rt, b"convert", 6, &mut to_events);
    let g = named::argument(rt, b"convert", 7, &mut to_far);
    let o = named::argument(rt, b"convert", 8, &mut to_near);
    opened(
        rt,
        direction,
        over,
        &events[..e],
        &far[..f],
        &near[..n],
        &to_events[..d],
        &to_far[..g],
        &to_near[..o],
    )
}

// to-floats and to-shorts, new and over: one letter tells them apart.
fn letter(rt: HostRuntime, i: usize, at: usize) -> u8 {
    let mut word = rooms::name();
    let n = named::argument(rt, b"convert", i, &mut word);
    if at < n {
        return word[at];
    }
    0
}

fn run(rt: HostRuntime) -> u64 {
    if named::words(&rt) != 9 {
        return misused(rt);
    }
    let over = letter(rt, 2, 0) == b'o';
    match letter(rt, 1, 3) {
        b'f' => named_files(rt, Direction::ToFloats, over),
        b's' => named_files(rt, Direction::ToShorts, over),
        _ => misused(rt),
    }
}

fn misused(rt: HostRuntime) -> u64 {
    named::say(
        rt.stderr(),
        b"convert",
        b"to-floats or to-shorts, new or over, three inputs and three outputs",
    );
    2
}

fn main(rt: HostRuntime) -> ExitCode {
    told::status(run(rt))
}
