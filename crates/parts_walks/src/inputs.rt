// The two logs, each behind a window.
ghost use Rattle.std.specs.Prelude.{◌≡◌, length};
ghost use Rattle.pipes.specs.Window.{Within};
ghost use Rattle.parts_walks.specs.Inputs.{BothWithin, BothMoved, Passed, FirstRead, SecondRead};

use pipes::reason::Reason;
use pipes::window::Window;
use pipes::{named, window};
use std::fs::File;

// A log is so many bytes of an open file at most, from that place on.
#[derive(Clone, Copy)]
pub struct Source<'a> {
    pub file: &'a File,
    pub start: u64,
    pub most: u64,
}

// The open files that the two are read from.
#[derive(Clone, Copy)]
pub struct Logs<'a> {
    pub first: &'a File,
    pub second: &'a File,
}

#[derive(Clone, Copy)]
pub struct Inputs {
    pub first: Window,
    pub second: Window,
}

// Every pass reads a log from its beginning; one that cannot be read there is not read at all.
pub fn begin(source: Source<'_>) -> Window
    ensures { Within result }
{
    match named::go_to(source.file, source.start) {
        Ok(()) => window::fresh(source.most),
        Err(why) => window::unreadable(why),
    }
}

pub fn begin_both(first: Source<'_>, second: Source<'_>) -> Inputs
    ensures { BothWithin result }
{
    Inputs {
        first: begin(first),
        second: begin(second),
    }
}

#[derive(Clone, Copy)]
pub enum Log {
    First,
    Second,
}

// Which log could not be read, and why.
#[derive(Clone, Copy)]
pub struct Unread {
    pub log: Log,
    pub why: Reason,
}

fn past(inputs: Inputs, u: usize, v: usize) -> Inputs
    requires { BothWithin inputs }
    ensures { Passed u v inputs result }
{
    Inputs {
        first: window::past(inputs.first, u),
        second: window::past(inputs.second, v),
    }
}

fn refill_first(inputs: Inputs, from: &File, room: &mut [u8]) -> Inputs
    requires { (BothWithin inputs) × (length room.old ≡ 65536) }
    ensures { FirstRead inputs room.old result room.new }
{
    let second = inputs.second;
    Inputs {
        first: window::refill(inputs.first, Some(from), room),
        second,
    }
}

fn refill_second(inputs: Inputs, from: &File, room: &mut [u8]) -> Inputs
    requires { (BothWithin inputs) × (length room.old ≡ 65536) }
    ensures { SecondRead inputs room.old result room.new }
{
    let first = inputs.first;
    Inputs {
        first,
        second: window::refill(inputs.second, Some(from), room),
    }
}

// So many bytes of each are used, and one log is read on.
pub fn go_on(
    inputs: Inputs,
    u: usize,
    v: usize,
    wanted: Option<Log>,
    logs: &Logs<'_>,
    first: &mut [u8],
    second: &mut [u8],
) -> Inputs
    requires { (BothWithin inputs) × (length first.old ≡ 65536) × (length second.old ≡ 65536) }
    ensures { BothMoved u v inputs first.old second.old result first.new second.new }
{
    let rest = past(inputs, u, v);
    match wanted {
        None => rest,
        Some(Log::First) => refill_first(rest, logs.first, first),
        Some(Log::Second) => refill_second(rest, logs.second, second),
    }
}

// The first log of which a read has failed.
pub fn failed(inputs: Inputs) -> Option<Unread> {
    match (inputs.first.failed, inputs.second.failed) {
        (Some(why), _) => Some(Unread {
            log: Log::First,
            why,
        }),
        (None, Some(why)) => Some(Unread {
            log: Log::Second,
            why,
        }),
        (None, None) => None,
    }
}
