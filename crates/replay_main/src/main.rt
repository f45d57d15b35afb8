// Replays a recording: `replay_main EVENTS FAR NEAR` writes its log to standard output. `./replay` is its front.
#![tactic(auto)]

use pipes::reason::Reason;
use pipes::{named, rooms, told};
use replay_close::{Failure, Found};
use replay_inputs::{Files, Most};
use replay_sink::Goal;
use replay_stream::Input;
use std::fs::File;
use std::io::Stderr;
use std::process::ExitCode;

fn name_unread(err: Stderr, input: Input, why: Reason, events: &[u8], far: &[u8], near: &[u8]) {
    let name = match input {
        Input::Entries => events,
        Input::FarSide => far,
        Input::NearSide => near,
    };
    named::fail(err, b"replay", name, why);
}

// A reader that has gone away has had what it wanted.
fn unwritten(err: Stderr, why: Reason) -> u64 {
    if told::unread(why) {
        return 0;
    }
    named::fail(err, b"replay", b"standard output", why);
    1
}

// What the program ends with: 0, 1 where a file could not be read or written, which standard error names, or 4 where the log has a refusal or a `bad` line.
fn status_of(
    err: Stderr,
    outcome: Result<Found, Failure>,
    events: &[u8],
    far: &[u8],
    near: &[u8],
) -> u64 {
    match outcome {
        Ok(Found::Clean) => 0,
        Ok(Found::Amiss) => 4,
        Ok(Found::Wrong) => 3,
        Err(Failure::Unread(input, why)) => {
            name_unread(err, input, why, events, far, near);
            1
        }
        Err(Failure::UnreadLog(why)) => {
            named::fail(err, b"replay", b"the log", why);
            1
        }
        Err(Failure::Unwritten(why)) => unwritten(err, why),
        Err(Failure::Broken) => {
            named::say(err, b"replay", b"the library's answer fits no recording");
            1
        }
    }
}

// The three files of a recording.
#[derive(Drop)]
struct Recording {
    events: File,
    far: File,
    near: File,
}

// They are opened in their order, and the first that cannot be is named.
fn opened(rt: HostRuntime, events: &[u8], far: &[u8], near: &[u8]) -> Option<Recording> {
    let events = named::open(rt, b"replay", events)?;
    let far = named::open(rt, b"replay", far)?;
    let near = named::open(rt, b"replay", near)?;
    Some(Recording { events, far, near })
}

fn replayed(rt: HostRuntime, events: &[u8], far: &[u8], near: &[u8]) -> u64 {
    let Some(recording) = opened(rt, events, far, near) else {
        return 1;
    };
    let files = Files {
        events: Some(&recording.events),
        far: Some(&recording.far),
        near: Some(&recording.near),
    };
    let outcome = replay_host::run(
        rt.stdout(),
        &files,
        None,
        Most::whole_files(),
        Goal::Write(rt.stdout()),
        told::watched(rt.stderr()),
    );
    status_of(rt.stderr(), outcome, events, far, near)
}

fn named_files(rt: HostRuntime) -> u64 {
    let mut events = rooms::name();
    let mut far = rooms::name();
    let mut near = rooms::name();
    let e = named::argument(rt, b"replay", 1, &mut events);
    let f = named::argument(rt, b"replay", 2, &mut far);
    let n = named::argument(rt, b"replay", 3, &mut near);
    replayed(rt, &events[..e], &far[..f], &near[..n])
}

fn run(rt: HostRuntime) -> u64 {
    if named::words(&rt) != 4 {
        named::say(
            rt.stderr(),
            b"replay",
            b"three files make a recording: EVENTS FAR NEAR",
        );
        return 2;
    }
    named_files(rt)
}

fn main(rt: HostRuntime) -> ExitCode {
    told::status(run(rt))
}
