// What a replay came to, once no line comes any more: the last of the log is written, or the verdict on a log told. It is proved to be safe and to end.
#![tactic(auto)]

ghost use Rattle.std.specs.Prelude.{◌≡◌, length};
ghost use Rattle.pipes.specs.Window.{Within};
ghost use Rattle.replay_sink.specs.Sink.{Fits};

use log_hold::{Check, Verdict};
use log_lines::Line;
use log_sink::Text;
use pipes::reason::Reason;
use pipes::told::Watch;
use pipes::{reason, told, window};
use replay_sink::Sink;
use replay_stream::{Answer, Input};
use std::fs::File;
use std::io::Stdout;

// What a replay came to. Clean: the log is out, or was found right. Amiss: it is out, and has a refusal or a `bad` line. Wrong: the log that was checked is wrong.
#[derive(Clone, Copy)]
pub enum Found {
    Clean,
    Amiss,
    Wrong,
}

// Why it came to nothing. Unread: a read of this input failed. UnreadLog: a read of the log that is checked did. Unwritten: a write failed. Broken: the library's answer fits no recording, which
// its theorems rule out.
#[derive(Clone, Copy)]
pub enum Failure {
    Unread(Input, Reason),
    UnreadLog(Reason),
    Unwritten(Reason),
    Broken,
}

// ---- what it came to

fn found_in_text(text: Text, over: bool) -> Result<Found, Failure> {
    if !text.good {
        return Err(Failure::Unwritten(text.reason));
    }
    if !over {
        return Err(Failure::Broken);
    }
    Ok(if text.amiss {
        Found::Amiss
    } else {
        Found::Clean
    })
}

fn write_first(out: Stdout, n: usize, text: &[u8], watched: Watch) -> Result<(), Reason> {
    if text.len() < n {
        return Err(reason::none());
    }
    told::drain(out, &text[..n], watched)
}

// The verdict in words, or why they were not written.
fn say_in(
    out: Stdout,
    line: u64,
    verdict: Verdict,
    hand: &[u8],
    ended: bool,
    watched: Watch,
    text: &mut [u8],
) -> Result<(), Reason> {
    let n = log_says::write_verdict(line, verdict, hand, ended, text).ok_or(reason::none())?;
    write_first(out, n, text, watched)
}

// The same of a window's bytes.
fn say(out: Stdout, check: Check, watched: Watch, room: &[u8]) -> Result<(), Reason>
    requires { (Within check.log) × (length room.now ≡ 65536) }
{
    let log = check.log;
    let verdict = check.verdict;
    let at = log.at;
    let end = log.end;
    let mut text = [0u8; 256];
    say_in(
        out,
        check.line,
        verdict,
        &room[at..end],
        window::ended(log),
        watched,
        &mut text,
    )
}

// A log that could not be read has no verdict.
fn found_by_check(out: Stdout, check: Check, watched: Watch, room: &[u8]) -> Result<Found, Failure>
    requires { (Within check.log) × (length room.now ≡ 65536) }
{
    if let Some(why) = check.log.failed {
        return Err(Failure::UnreadLog(why));
    }
    let found = match check.verdict {
        Verdict::Going => return Err(Failure::Broken),
        Verdict::Accepted => Found::Clean,
        Verdict::Wrong(_) => Found::Wrong,
    };
    say(out, check, watched, room).map_err(Failure::Unwritten)?;
    Ok(found)
}

fn found_by(
    out: Stdout,
    sink: Sink,
    over: bool,
    watched: Watch,
    room: &[u8],
) -> Result<Found, Failure>
    requires { Fits sink room.now }
{
    match sink {
        Sink::Writes(text) => found_in_text(text, over),
        Sink::Checks(check) => found_by_check(out, check, watched, room),
    }
}

// No line comes any more. A recording that could not be read has no log.
pub fn closed(
    out: Stdout,
    sink: Sink,
    unread: Option<(Input, Reason)>,
    over: bool,
    watched: Watch,
    log: Option<&File>,
    room: &mut [u8],
) -> Result<Found, Failure>
    requires { Fits sink room.old }
{
    let last = replay_sink::finish(sink, over, log, room);
    if let Some((input, why)) = unread {
        return Err(Failure::Unread(input, why));
    }
    found_by(out, last, over, watched, room)
}

// A log of the one line `bad header`.
pub fn unopened(
    out: Stdout,
    sink: Sink,
    watched: Watch,
    log: Option<&File>,
    room: &mut [u8],
) -> Result<Found, Failure>
    requires { Fits sink room.old }
{
    let one = replay_sink::take(sink, Answer::Says(Line::BadHeader), log, room);
    closed(out, one, None, true, watched, log, room)
}
