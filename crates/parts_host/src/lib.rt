// Two logs in open files, and what is told of them. What comes next is said by the calls of `log_passes`, which do no input or output; this crate hands them the bytes and writes
// the text of `log_report`, and is proved to be safe and to end.
#![tactic(auto)]

ghost use Rattle.std.specs.Prelude.{◌≡◌, length};
ghost use Rattle.pipes.specs.Window.{Within};

use log_parts::{Report, Sort, Tally};
use log_passes::beside::Ask;
use log_passes::judging::Look;
use log_passes::passing::Need;
use parts_walks::inputs::{Log, Logs, Source, Unread};
use parts_walks::judge::Stand;
use parts_walks::order::Walk;
use parts_walks::{inputs, judge, order, sorts};
use pipes::reason::Reason;
use pipes::{reason, rooms, told};
use std::io::Stdout;

// What was told of two logs: that they are the same, or where they part.
#[derive(Clone, Copy)]
pub enum Told {
    Same,
    Parted,
}

// Why that was not told. Strange: a line that is none of a log was told instead. Unread: a read failed. Unwritten: a write failed. Changed: a log was not the same in two passes.
#[derive(Clone, Copy)]
pub enum Failure {
    Strange,
    Unread(Unread),
    Unwritten(Reason),
    Changed,
}

fn write(out: Stdout, text: &[u8]) -> Result<(), Failure> {
    told::write(out, text).map_err(Failure::Unwritten)
}

// A text that found room is written out.
fn tell(written: Option<usize>, text: &[u8], out: Stdout) -> Result<(), Failure> {
    let none = Failure::Unwritten(reason::none());
    let n = written.ok_or(none)?;
    let words = text.get(..n).ok_or(none)?;
    write(out, words)
}

// The line at which a log stops being one: its first n bytes are at hand.
fn tell_strange(
    stand: Stand,
    n: usize,
    room: &[u8],
    name: &[u8],
    text: &mut [u8],
    out: Stdout,
) -> Result<(), Failure>
    requires { (Within stand.window) × (length room.now ≡ 65536) }
{
    let window = stand.window;
    let hand = &room[window.at..window.end];
    let line = hand.get(..n).ok_or(Failure::Changed)?;
    let written = log_report::write_refusal(name, stand.judging.place, line, text);
    tell(written, text, out)?;
    Err(Failure::Strange)
}

fn heard(
    log: Log,
    stand: Stand,
    room: &[u8],
    name: &[u8],
    text: &mut [u8],
    out: Stdout,
) -> Result<(), Failure>
    requires { (Within stand.window) × (length room.now ≡ 65536) }
{
    if let Some(why) = stand.window.failed {
        return Err(Failure::Unread(Unread { log, why }));
    }
    match stand.look {
        Look::Goes(_) | Look::Wants => Err(Failure::Changed),
        Look::Over => Ok(()),
        Look::Strange(n) => tell_strange(stand, n, room, name, text, out),
    }
}

fn judge_in(
    log: Log,
    source: Source<'_>,
    name: &[u8],
    room: &mut [u8],
    text: &mut [u8],
    out: Stdout,
) -> Result<(), Failure>
    requires { length room.old ≡ 65536 }
{
    let stand = judge::all(judge::opening(inputs::begin(source)), source.file, room);
    heard(log, stand, room, name, text, out)
}

// The log is judged: is each of its lines one of a log.
fn judged(
    log: Log,
    source: Source<'_>,
    name: &[u8],
    text: &mut [u8],
    out: Stdout,
) -> Result<(), Failure> {
    let mut room = rooms::large();
    judge_in(log, source, name, &mut room, text, out)
}

fn logs_of<'a>(first: Source<'a>, second: Source<'a>) -> Logs<'a> {
    Logs {
        first: first.file,
        second: second.file,
    }
}

// A walk that has ended, and no read of it failed, has come to the ends of both logs.
fn tally_of(walk: sorts::Walk) -> Result<Tally, Failure> {
    if let Some(unread) = inputs::failed(walk.inputs) {
        return Err(Failure::Unread(unread));
    }
    match walk.need {
        Need::Over => Ok(walk.pass.tally),
        Need::Goes | Need::WantsFirst | Need::WantsSecond | Need::Strange => Err(Failure::Changed),
    }
}

fn walk_in(
    sort: Sort,
    first: Source<'_>,
    second: Source<'_>,
    mine: &mut [u8],
    other: &mut [u8],
) -> Result<Tally, Failure>
    requires { (length mine.old ≡ 65536) × (length other.old ≡ 65536) }
{
    let begun = sorts::opening(inputs::begin_both(first, second));
    tally_of(sorts::all(sort, begun, &logs_of(first, second), mine, other))
}

// What both logs come to in a sort: the first difference, and how many there are.
fn walk_sort(sort: Sort, first: Source<'_>, second: Source<'_>) -> Result<Tally, Failure> {
    let mut mine = rooms::large();
    let mut other = rooms::large();
    walk_in(sort, first, second, &mut mine, &mut other)
}

// The logs part at that line: both are walked once for each sort.
fn report_of(place: u64, first: Source<'_>, second: Source<'_>) -> Result<Report, Failure> {
    let headers = walk_sort(Sort::Headers, first, second)?;
    let frames = walk_sort(Sort::Frames, first, second)?;
    let cycles = walk_sort(Sort::Cycles, first, second)?;
    let refusals = walk_sort(Sort::Refusals, first, second)?;
    let closings = walk_sort(Sort::Closings, first, second)?;
    Ok(Report {
        headers: headers.first,
        frames: frames.first,
        cycles: cycles.first,
        refusals: refusals.first,
        closings: closings.first,
        differing_frames: frames.count,
        differing_cycles: cycles.count,
        place,
    })
}

// Whether the two logs are the same, or the line in which they part.
fn parting_of(walk: Walk) -> Result<Option<u64>, Failure> {
    if let Some(unread) = inputs::failed(walk.inputs) {
        return Err(Failure::Unread(unread));
    }
    match walk.ask {
        Ask::Same => Ok(None),
        Ask::Apart => Ok(Some(walk.place)),
        Ask::Goes(..) | Ask::WantsFirst | Ask::WantsSecond | Ask::Strange => Err(Failure::Changed),
    }
}

fn order_in(
    first: Source<'_>,
    second: Source<'_>,
    mine: &mut [u8],
    other: &mut [u8],
) -> Result<Option<u64>, Failure>
    requires { (length mine.old ≡ 65536) × (length other.old ≡ 65536) }
{
    let begun = order::opening(inputs::begin_both(first, second));
    parting_of(order::all(begun, &logs_of(first, second), mine, other))
}

fn ordered(first: Source<'_>, second: Source<'_>) -> Result<Option<u64>, Failure> {
    let mut mine = rooms::large();
    let mut other = rooms::large();
    order_in(first, second, &mut mine, &mut other)
}

// Two logs, each the lines of a log.
fn compared(
    first: Source<'_>,
    second: Source<'_>,
    text: &mut [u8],
    out: Stdout,
) -> Result<Told, Failure> {
    match ordered(first, second)? {
        None => {
            write(out, b"same\n")?;
            Ok(Told::Same)
        }
        Some(place) => {
            let report = report_of(place, first, second)?;
            let written = log_report::write_report(report, text);
            tell(written, text, out)?;
            Ok(Told::Parted)
        }
    }
}

// Tells where two logs part, each of which can be read more than once. The first log is judged to its end, then the second; then both go side by side.
pub fn run(
    first: Source<'_>,
    first_name: &[u8],
    second: Source<'_>,
    second_name: &[u8],
    out: Stdout,
) -> Result<Told, Failure> {
    let mut text = rooms::large();
    judged(Log::First, first, first_name, &mut text, out)?;
    judged(Log::Second, second, second_name, &mut text, out)?;
    compared(first, second, &mut text, out)
}
