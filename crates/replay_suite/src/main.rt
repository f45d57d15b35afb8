// Checks the logs of the stored recordings, which the file `logs` holds as the unchanged Rust gives them, and writes the verdicts: of each log, and of the log without its last two
// bytes. The file `stdout` holds those of a plain comparison. tests/replay/README.md says how all were made. All recordings stand one behind the other, each side in a file of its own.
#![tactic(auto)]

use pipes::{named, told};
use replay_close::{Failure, Found};
use replay_inputs::Most;
use replay_sink::Goal;
use std::fs::File;
use std::io::Stderr;
use vectors::files::Records;

// What the index says of a recording: how many bytes its events, far samples, near samples and log have.
type Record = [u8; 16];

#[derive(Drop)]
struct Files {
    events: File,
    far: File,
    near: File,
    logs: File,
}

// Where a recording begins in each file.
#[derive(Clone, Copy)]
struct Places {
    events: u64,
    far: u64,
    near: u64,
    log: u64,
}

// A place that cannot be gone to shows in what is read there.
fn go_to_all(files: &Files, places: Places) {
    let _ = named::go_to(&files.events, places.events);
    let _ = named::go_to(&files.far, places.far);
    let _ = named::go_to(&files.near, places.near);
    let _ = named::go_to(&files.logs, places.log);
}

// A log without a verdict is not passed over in silence.
fn judge(err: Stderr, outcome: Result<Found, Failure>) {
    match outcome {
        Ok(_) => {}
        Err(Failure::Unread(_, _) | Failure::UnreadLog(_)) => named::say(
            err,
            b"replay_suite",
            b"a file could not be read",
        ),
        Err(Failure::Unwritten(_)) => named::say(
            err,
            b"replay_suite",
            b"a verdict could not be written",
        ),
        Err(Failure::Broken) => named::say(
            err,
            b"replay_suite",
            b"the library's answer fits no recording",
        ),
    }
}

// Of the log so many bytes are there.
fn try_log(rt: HostRuntime, files: &Files, places: Places, most: Most, log: u64) {
    go_to_all(files, places);
    let inputs = replay_inputs::Files {
        events: Some(&files.events),
        far: Some(&files.far),
        near: Some(&files.near),
    };
    let outcome = replay_host::run(
        rt.stdout(),
        &inputs,
        Some(&files.logs),
        most,
        Goal::Check(log),
        told::unwatched(rt.stderr()),
    );
    judge(rt.stderr(), outcome);
}

// The recording that a record speaks of, and where the next one begins.
fn try_recording(rt: HostRuntime, files: &Files, places: Places, record: &Record) -> Places {
    let most = Most {
        events: vectors::number(record, 0, 4),
        far: vectors::number(record, 4, 4),
        near: vectors::number(record, 8, 4),
    };
    let log = vectors::number(record, 12, 4);
    try_log(rt, files, places, most, log);
    try_log(rt, files, places, most, log.saturating_sub(2));
    Places {
        events: places.events.saturating_add(most.events),
        far: places.far.saturating_add(most.far),
        near: places.near.saturating_add(most.near),
        log: places.log.saturating_add(log),
    }
}

// An index of at most 4,096 recordings.
fn try_all(rt: HostRuntime, files: &Files, index: &File) {
    let mut places = Places {
        events: 0,
        far: 0,
        near: 0,
        log: 0,
    };
    for record in Records::of(Some(index), 4096) {
        places = try_recording(rt, files, places, &record);
    }
}

// All are opened, and each that cannot be is named.
fn opened(rt: HostRuntime) -> Option<Files> {
    let events = named::open(rt, b"replay_suite", b"events");
    let far = named::open(rt, b"replay_suite", b"far");
    let near = named::open(rt, b"replay_suite", b"near");
    let logs = named::open(rt, b"replay_suite", b"logs");
    Some(Files {
        events: events?,
        far: far?,
        near: near?,
        logs: logs?,
    })
}

fn main(rt: HostRuntime) {
    let files = opened(rt);
    let index = named::open(rt, b"replay_suite", b"index");
    if let (Some(files), Some(index)) = (files, index) {
        try_all(rt, &files, &index);
    }
}
