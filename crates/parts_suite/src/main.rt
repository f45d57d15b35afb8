// Tells where the stored pairs of logs part. The file `stdout` holds what a plain referee, written from the text of request b, tells of them: the check compares the two byte
// for byte. tests/parts/README.md says how they were made. All logs stand one behind the other, each side in a file of its own.
#![tactic(auto)]

use parts_host::{Failure, Told};
use parts_walks::inputs::Source;
use pipes::named;
use std::fs::File;
use std::io::Stderr;
use vectors::files::Records;

// What the index says of a pair: how many bytes each log has.
type Record = [u8; 8];

// Where a pair begins in each file.
#[derive(Clone, Copy)]
struct Places {
    first: u64,
    second: u64,
}

// A pair that did not come to its end is not compared in silence.
fn judge(err: Stderr, outcome: Result<Told, Failure>) {
    match outcome {
        Ok(_) | Err(Failure::Strange) => {}
        Err(Failure::Unread(_)) => named::say(err, b"parts_suite", b"a file could not be read"),
        Err(Failure::Unwritten(_)) => named::say(
            err,
            b"parts_suite",
            b"a report could not be written",
        ),
        Err(Failure::Changed) => named::say(
            err,
            b"parts_suite",
            b"a log is not the same in two passes",
        ),
    }
}

fn source(file: &File, start: u64, bytes: u32) -> Source<'_> {
    Source {
        file,
        start,
        most: bytes as u64,
    }
}

// The pair that a record speaks of, and where the next one begins.
fn try_pair(
    rt: HostRuntime,
    first: &File,
    second: &File,
    places: Places,
    record: &Record,
) -> Places {
    let mine = vectors::number32(record, 0);
    let other = vectors::number32(record, 4);
    let outcome = parts_host::run(
        source(first, places.first, mine),
        b"first",
        source(second, places.second, other),
        b"second",
        rt.stdout(),
    );
    judge(rt.stderr(), outcome);
    Places {
        first: places.first.saturating_add(mine as u64),
        second: places.second.saturating_add(other as u64),
    }
}

// An index of at most 8,192 pairs.
fn try_all(rt: HostRuntime, first: &File, second: &File, index: &File) {
    let mut places = Places {
        first: 0,
        second: 0,
    };
    for record in Records::of(Some(index), 8192) {
        places = try_pair(rt, first, second, places, &record);
    }
}

// Each that is missing is named.
fn main(rt: HostRuntime) {
    let first = named::open(rt, b"parts_suite", b"first");
    let second = named::open(rt, b"parts_suite", b"second");
    let index = named::open(rt, b"parts_suite", b"index");
    if let (Some(first), Some(second), Some(index)) = (first, second, index) {
        try_all(rt, &first, &second, &index);
    }
}
