// Checks a log against a recording: `check_main EVENTS FAR NEAR LOG` says `accepted`, or names the first wrong line. `./check` is its front.
#![tactic(auto)]

use pipes::reason::Reason;
use pipes::{named, rooms, told};
use replay_close::{Failure, Found};
use replay_inputs::{Files, Most};
use replay_sink::Goal;
use replay_stream::Input;
use std::fs::File;
use std::io::Stderr;
use std::process::ExitCode;

fn name_unread(err: Stderr, input: Input, why: Reason, events: &[u8], far: &[u8], near: &[u8]) {
    let name = match input {
        Input::Entries => events,
        Input::FarSide => far,
        Input::NearSide => near,
    };
    named::fail(err, b"check", name, why);
}

// A reader that has gone away has had what it wanted: the status is then that of a program that SIGPIPE ended.
fn unwritten(err: Stderr, why: Reason) -> u64 {
    if told::unread(why) {
        return 141;
    }
    named::fail(err, b"check", b"standard output", why);
    1
}

// What the program ends with: 0 where the log was accepted, 3 where it is wrong, 1 where a file could not be read or the verdict not written, which standard error names, or 141 where nobody
// reads the verdict any more.
fn status_of(
    err: Stderr,
    outcome: Result<Found, Failure>,
    events: &[u8],
    far: &[u8],
    near: &[u8],
    log: &[u8],
) -> u64 {
    match outcome {
        Ok(Found::Clean | Found::Amiss) => 0,
        Ok(Found::Wrong) => 3,
        Err(Failure::Unread(input, why)) => {
            name_unread(err, input, why, events, far, near);
            1
        }
        Err(Failure::UnreadLog(why)) => {
            named::fail(err, b"check", log, why);
            1
        }
        Err(Failure::Unwritten(why)) => unwritten(err, why),
        Err(Failure::Broken) => {
            named::say(err, b"check", b"the library's answer fits no recording");
            1
        }
    }
}

// The three files of a recording, and a log.
#[derive(Drop)]
struct Judged {
    events: File,
    far: File,
    near: File,
    log: File,
}

// They are opened in their order, and the first that cannot be is named.
fn opened(rt: HostRuntime, events: &[u8], far: &[u8], near: &[u8], log: &[u8]) -> Option<Judged> {
    let events = named::open(rt, b"check", events)?;
    let far = named::open(rt, b"check", far)?;
    let near = named::open(rt, b"check", near)?;
    let log = named::open(rt, b"check", log)?;
    Some(Judged {
        events,
        far,
        near,
        log,
    })
}

fn checked(rt: HostRuntime, events: &[u8], far: &[u8], near: &[u8], log: &[u8]) -> u64 {
    let Some(open) = opened(rt, events, far, near, log) else {
        return 1;
    };
    let files = Files {
        events: Some(&open.events),
        far: Some(&open.far),
        near: Some(&open.near),
    };
    let outcome = replay_host::run(
        rt.stdout(),
        &files,
        Some(&open.log),
        Most::whole_files(),
        Goal::Check(u64::MAX),
        told::watched(rt.stderr()),
    );
    status_of(rt.stderr(), outcome, events, far, near, log)
}

fn named_files(rt: HostRuntime) -> u64 {
    let mut events = rooms::name();
    let mut far = rooms::name();
    let mut near = rooms::name();
    let mut log = rooms::name();
    let e = named::argument(rt, b"check", 1, &mut events);
    let f = named::argument(rt, b"check", 2, &mut far);
    let n = named::argument(rt, b"check", 3, &mut near);
    let l = named::argument(rt, b"check", 4, &mut log);
    checked(rt, &events[..e], &far[..f], &near[..n], &log[..l])
}

fn run(rt: HostRuntime) -> u64 {
    if named::words(&rt) != 5 {
        named::say(
            rt.stderr(),
            b"check",
            b"three files make a recording, and a fourth is the log: EVENTS FAR NEAR LOG",
        );
        return 2;
    }
    named_files(rt)
}

fn main(rt: HostRuntime) -> ExitCode {
    told::status(run(rt))
}
