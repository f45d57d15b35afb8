// The first pass: is the recording of the form that the direction takes, and is it whole? Events are read, and no sample is.
ghost use Rattle.std.specs.Prelude.{◌≡◌, true, ◌<◌, length};
ghost use Rattle.convert_side.specs.Side.{Fits};

use convert_side::Side;
use pipes::reason::Reason;
use pipes::rooms;
use recording::{Header, Lengths, Used};
use recording_convert::Direction;
use std::fs::File;

// Why a recording may not be converted: the first two are of its header. Unread: the events could not be read.
#[derive(Clone, Copy)]
pub enum Fault {
    BadHeader,
    OtherForm,
    BadEvent(u32),
    BadTotals,
    Unread(Reason),
}

// `lacks`: the event of that number is bad, or has not its samples.
#[derive(Clone, Copy)]
struct Judging {
    side: Side,
    number: u32,
    used: Used,
    lacks: bool,
}

fn first() -> Judging
    ensures { Fits result.side }
{
    Judging {
        side: convert_side::fresh(u64::MAX),
        number: 0,
        used: Used { far: 0, near: 0 },
        lacks: false,
    }
}

fn lacking(j: Judging, side: Side) -> Judging
    ensures { result.side ≡ side }
{
    let used = j.used;
    Judging {
        side,
        number: j.number,
        used,
        lacks: true,
    }
}

fn judged(j: Judging, side: Side, used: Used) -> Judging
    ensures { result.side ≡ side }
{
    Judging {
        side,
        number: j.number.saturating_add(1),
        used,
        lacks: false,
    }
}

// The entry at hand, or that it is not there.
fn admission(header: Header, lengths: Lengths, used: Used, side: Side, room: &[u8]) -> Option<Used>
    requires { (Fits side) × (length room.now ≡ 65536) }
{
    let input = side.input;
    let at = input.at;
    let end = input.end;
    recording_convert::judge(header, lengths, used, &room[at..end], 0)
}

// One event.
fn turn(header: Header, lengths: Lengths, j: Judging, events: &File, room: &mut [u8]) -> Judging
    requires { (Fits j.side) × (length room.old ≡ 65536) }
    ensures { Fits result.side }
{
    let side = convert_side::fill(j.side, 16, Some(events), room);
    match admission(header, lengths, j.used, side, room) {
        None => lacking(j, side),
        Some(used) => judged(j, convert_side::past(side, 16), used),
    }
}

fn goes_on(number: u32, events: u32, lacks: bool) -> bool
    ensures { result ≡ true → (number < events) × (number < 4294967295) }
{
    if lacks {
        return false;
    }
    if events <= number {
        return false;
    }
    true
}

// Event by event.
fn all(header: Header, lengths: Lengths, events: &File, room: &mut [u8]) -> Judging
    requires { length room.old ≡ 65536 }
{
    let mut j = first();
    let mut number: u32 = 0;
    while goes_on(number, header.events, j.lacks) {
        j = turn(header, lengths, j, events, room);
        number = number + 1;
    }
    j
}

fn told_of(header: Header, j: Judging) -> Result<Header, Fault> {
    if let Some(why) = j.side.input.failed {
        return Err(Fault::Unread(why));
    }
    if j.lacks {
        return Err(Fault::BadEvent(j.number));
    }
    if recording::all_used(header, j.used) {
        return Ok(header);
    }
    Err(Fault::BadTotals)
}

fn judge_events(
    direction: Direction,
    header: Header,
    lengths: Lengths,
    events: &File,
    room: &mut [u8],
) -> Result<Header, Fault>
    requires { length room.old ≡ 65536 }
{
    let form = header.form;
    if recording_store::takes(direction, form) {
        return told_of(header, all(header, lengths, events, room));
    }
    Err(Fault::OtherForm)
}

fn judge_in(
    direction: Direction,
    events: &File,
    lengths: Lengths,
    room: &mut [u8],
) -> Result<Header, Fault>
    requires { length room.old ≡ 65536 }
{
    let head = recording_head::read(Some(events), u64::MAX, room);
    if let Some(why) = head.failed {
        return Err(Fault::Unread(why));
    }
    match recording_head::opened(head, room) {
        None => Err(Fault::BadHeader),
        Some(header) => judge_events(direction, header, lengths, events, room),
    }
}

// Judges the recording whose events stand in an open file, from where it stands, and whose sample inputs have these lengths.
pub fn judge(direction: Direction, events: &File, lengths: Lengths) -> Result<Header, Fault> {
    let mut room = rooms::large();
    judge_in(direction, events, lengths, &mut room)
}
