// What a program gives back: its text, how far it is, and its status.
use crate::reason::Reason;
use crate::{named, reason};
use std::io::{IsTerminal, Print, Stderr, Stdout, Write};
use std::process::ExitCode;

// Standard error, and whether a person watches it.
#[derive(Clone, Copy)]
pub struct Watch {
    pub err: Stderr,
    pub on: bool,
}

pub fn watched(err: Stderr) -> Watch {
    Watch {
        err,
        on: err.is_terminal(),
    }
}

// Nobody is told how far a program is.
pub fn unwatched(err: Stderr) -> Watch {
    Watch { err, on: false }
}

// "TOOL: done of all things", over the line before.
pub fn progress(err: Stderr, tool: &[u8], done: u64, all: u64, things: &[u8]) {
    named::put(err, b"\r");
    named::put(err, tool);
    named::put(err, b": ");
    let _ = err.print(done);
    named::put(err, b" of ");
    let _ = err.print(all);
    named::put(err, b" ");
    named::put(err, things);
}

// Takes the progress away, so that text follows on a clean line.
pub fn wipe(err: Stderr) {
    named::put(err, b"\r\x1b[K");
}

// Writes the whole text, or says why not.
pub fn write<W: Write + Drop>(to: W, text: &[u8]) -> Result<(), Reason> {
    let mut out = to;
    out.write_all(text).map_err(|e| reason::of(&e))
}

// The same behind the progress, which is taken away first.
pub fn drain<W: Write + Drop>(to: W, text: &[u8], watch: Watch) -> Result<(), Reason> {
    if watch.on {
        wipe(watch.err);
    }
    write(to, text)
}

// The number in decimal digits.
pub fn number<W: Write + Drop>(to: W, n: u64) -> Result<(), Reason> {
    let mut out = to;
    write!(out, "{n}").map_err(|e| reason::of(&e))
}

// Text whose way out is not asked for.
pub fn put(out: Stdout, text: &[u8]) {
    let _ = Print::write_all(&out, text);
}

// The same of a number, in decimal digits.
pub fn put_number(out: Stdout, n: u64) {
    let _ = out.print(n);
}

// The same in hexadecimal digits, in lower case, with zeros in front up to 16 digits where it is `wide`.
pub fn put_hex(out: Stdout, n: u64, wide: bool) {
    let _ = if wide {
        print!(out; "{n:016x}")
    } else {
        print!(out; "{n:x}")
    };
}

// Whether the write that failed so did because its reader has gone away, which is no failure to speak of.
pub fn unread(why: Reason) -> bool {
    reason::is_unread(why)
}

// What the program ends with.
pub fn status(number: u64) -> ExitCode {
    ExitCode::from((number % 256) as u8)
}
