// The text of a log, held until there is enough of it to be written. Proved: a line joins what is held, whole and once, or the text says that it is no longer good. What is
// written is trusted by trial.
#![tactic(auto)]

ghost use Rattle.std.specs.Prelude.{◌≡◌, true, ◌++◌, ◌∷◌, [], ◌+◌, ◌≤◌, ◌<◌, ◌/◌, length, take, drop};
ghost use Rattle.log_lines.specs.Calls.{written, written_out};
ghost use Rattle.answers.specs.Pick.{either};
ghost use Rattle.log_sink.specs.Sink.{complaint, Joined, Wrote};

use log_lines::Line;
use pipes::reason::Reason;
use pipes::told::Watch;
use pipes::{reason, told};
use std::io::Stdout;

// The first `held` bytes of a room that the caller lends go to `out`. `good`: every line found room, and every write was done; `reason`: why the last write was not. `amiss`: some line is a refusal or a `bad` line.
// `watched`: a person watches standard error, where progress stands.
#[derive(Clone, Copy)]
pub struct Text {
    pub out: Stdout,
    pub watched: Watch,
    pub held: usize,
    pub good: bool,
    pub amiss: bool,
    pub reason: Reason,
}

pub fn fresh(out: Stdout, watched: Watch) -> Text
    ensures { result.held ≤ 0 }
{
    Text {
        out,
        watched,
        held: 0,
        good: true,
        amiss: false,
        reason: reason::none(),
    }
}

// Whether the line says that something was refused, or bad.
fn complains(line: Line) -> bool
    ensures { result ≡ complaint line }
{
    match line {
        Line::Replay(_, _) => false,
        Line::Frame(_, _) => false,
        Line::Cycle(_, _) => false,
        Line::Refused(_, _) => true,
        Line::End(_, _) => false,
        Line::BadHeader => true,
        Line::BadEvent(_) => true,
        Line::BadTotals => true,
    }
}

// A line that finds no room is never lost without a word: the text is then no longer good.
fn lost(text: Text) -> Text
    ensures { (result.held ≡ text.held) × (result.good ≡ true → ⊥) }
{
    Text {
        out: text.out,
        watched: text.watched,
        held: text.held,
        good: false,
        amiss: text.amiss,
        reason: text.reason,
    }
}

// n bytes of a line came behind what is held: its newline follows.
fn ended(text: Text, room: &mut [u8], n: usize, complaint: bool) -> Text
    requires { text.held ≤ length room.old }
    ensures { (result.held ≤ length room.new) × (result.good ≡ true → take result.held room.new ≡ take (text.held + n) room.old ++ 10 ∷ []) × (result.good ≡ true → result.amiss ≡ either text.amiss complaint) × (text.held + n < length room.old → result.good ≡ text.good) }
{
    let held = text.held;
    if room.len() - held <= n {
        return lost(text);
    }
    let end = held + n;
    room[end] = b'\n';
    Text {
        out: text.out,
        watched: text.watched,
        held: end + 1,
        good: text.good,
        amiss: text.amiss || complaint,
        reason: text.reason,
    }
}

// The line alone, behind the first bytes of the room.
fn write_behind(line: Line, room: &mut [u8], held: usize) -> Option<usize>
    requires { held ≤ length room.old }
    ensures { (result ≡ written line (drop held room.old)) × (room.new ≡ take held room.old ++ written_out line (drop held room.old)) }
{
    log_lines::write_line(line, &mut room[held..])
}

// The line and its newline, behind what is held.
fn put(text: Text, line: Line, room: &mut [u8]) -> Text
    requires { text.held ≤ length room.old }
    ensures { Joined text room.old line result room.new }
{
    let held = text.held;
    match write_behind(line, room, held) {
        None => lost(text),
        Some(n) => ended(text, room, n, complains(line)),
    }
}

// What is held is written.
pub fn drain(text: Text, room: &[u8]) -> Text
    requires { text.held ≤ length room.now }
    ensures { (result.held ≤ 0) × (result.amiss ≡ text.amiss) × (result.good ≡ true → text.good ≡ true) }
{
    let held = text.held;
    let done = told::drain(text.out, &room[..held], text.watched);
    Text {
        out: text.out,
        watched: text.watched,
        held: 0,
        good: text.good && done.is_ok(),
        amiss: text.amiss,
        reason: reason::behind(text.reason, done),
    }
}

// The same, once more than half of the room is full.
fn drain_when_full(text: Text, room: &[u8]) -> Text
    requires { text.held ≤ length room.now }
    ensures { (result.held ≤ length room.now / 2) × (result.amiss ≡ text.amiss) × (text.held ≤ length room.now / 2 → result ≡ text) }
{
    if room.len() / 2 < text.held {
        return drain(text, room);
    }
    text
}

// The line and its newline, behind what is held, which is written first where there is much of it.
pub fn write(text: Text, line: Line, room: &mut [u8]) -> Text
    requires { text.held ≤ length room.old }
    ensures { Wrote text room.old line result room.new }
{
    let first = drain_when_full(text, room);
    put(first, line, room)
}
