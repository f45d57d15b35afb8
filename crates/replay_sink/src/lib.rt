// Where the lines of a replay go: into a text that is written, or beside a log that is checked.
#![tactic(auto)]

ghost use Rattle.std.specs.Prelude.{◌≡◌, true, ◌≤◌, length};
ghost use Rattle.pipes.specs.Window.{Within};
ghost use Rattle.replay_sink.specs.Sink.{Fits, FitsAny, Fresh, Heard, HeardOf, Open, Closed, ClosedIf, Finished};

use log_hold::{Check, Verdict};
use log_lines::Line;
use log_sink::Text;
use pipes::told::Watch;
use pipes::window;
use replay_stream::Answer;
use std::fs::File;
use std::io::Stdout;

#[derive(Clone, Copy)]
pub enum Sink {
    Writes(Text),
    Checks(Check),
}

// What a replay is for: a log that is written, or one in an open file that is checked, of at most so many bytes from where the file stands.
#[derive(Clone, Copy)]
pub enum Goal {
    Write(Stdout),
    Check(u64),
}

// The first line of a log is line 1.
fn unchecked(most: u64) -> Check
    ensures { (Within result.log) × (result.line ≡ 1) × (result.verdict ≡ Verdict.Going) }
{
    Check {
        log: window::fresh(most),
        line: 1,
        verdict: Verdict::Going,
    }
}

// Before the first line.
pub fn fresh(goal: Goal, watched: Watch) -> Sink
    ensures { (FitsAny result) × (Fresh result) }
{
    match goal {
        Goal::Write(out) => Sink::Writes(log_sink::fresh(out, watched)),
        Goal::Check(most) => Sink::Checks(unchecked(most)),
    }
}

// A line that was answered.
fn hear(sink: Sink, line: Line, log: Option<&File>, room: &mut [u8]) -> Sink
    requires { Fits sink room.old }
    ensures { (Heard sink line room.old result room.new) × (Fits result room.new) }
{
    match sink {
        Sink::Writes(text) => Sink::Writes(log_sink::write(text, line, room)),
        Sink::Checks(check) => Sink::Checks(log_hold::hold_next(check, Some(line), log, room)),
    }
}

// What was answered, if it is a line. A log that is checked is read from the file.
pub fn take(sink: Sink, answer: Answer, log: Option<&File>, room: &mut [u8]) -> Sink
    requires { Fits sink room.old }
    ensures { (HeardOf answer sink room.old result room.new) × (Fits result room.new) }
{
    match answer {
        Answer::Says(line) => hear(sink, line, log, room),
        Answer::Silent | Answer::Wants(_) | Answer::Over => sink,
    }
}

fn on_its_way(check: Check) -> bool
    ensures { result ≡ true → check.verdict ≡ Verdict.Going }
{
    check.log.failed.is_none() && matches!(check.verdict, Verdict::Going)
}

// Whether another line is of any use.
pub fn goes_on(sink: Sink) -> bool
    ensures { result ≡ true → Open sink }
{
    match sink {
        Sink::Writes(text) => text.good,
        Sink::Checks(check) => on_its_way(check),
    }
}

// No line comes any more: a log that was right so far must be over.
fn close(check: Check, log: Option<&File>, room: &mut [u8]) -> Check
    requires { (Within check.log) × (length room.old ≡ 65536) }
    ensures { (Closed check room.old result room.new) × (Within result.log) }
{
    if on_its_way(check) {
        return log_hold::hold_next(check, None, log, room);
    }
    check
}

fn closed_if(check: Check, over: bool, log: Option<&File>, room: &mut [u8]) -> Check
    requires { (Within check.log) × (length room.old ≡ 65536) }
    ensures { (ClosedIf over check room.old result room.new) × (Within result.log) }
{
    if over {
        return close(check, log, room);
    }
    check
}

// What is left of a text is written; a log that was right so far must be over where the recording's is.
pub fn finish(sink: Sink, over: bool, log: Option<&File>, room: &mut [u8]) -> Sink
    requires { Fits sink room.old }
    ensures { (Finished over sink room.old result room.new) × (Fits result room.new) }
{
    match sink {
        Sink::Writes(text) => Sink::Writes(log_sink::drain(text, room)),
        Sink::Checks(check) => Sink::Checks(closed_if(check, over, log, room)),
    }
}
