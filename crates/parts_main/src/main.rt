// Where two logs part: `parts_main LOG LOG` tells it on standard output. `./parts` is its front.
#![tactic(auto)]

use parts_host::{Failure, Told};
use parts_walks::inputs::{Log, Source, Unread};
use pipes::reason::Reason;
use pipes::{named, rooms, told};
use std::fs::File;
use std::io::Stderr;
use std::process::ExitCode;

// A reader that has gone away has had what it wanted; what it would have read decides the status no more.
fn unwritten(err: Stderr, why: Reason) -> u64 {
    if told::unread(why) {
        return 0;
    }
    named::fail(err, b"parts", b"standard output", why);
    1
}

fn name_unread(err: Stderr, unread: Unread, first: &[u8], second: &[u8]) {
    let name = match unread.log {
        Log::First => first,
        Log::Second => second,
    };
    named::fail(err, b"parts", name, unread.why);
}

// What the program ends with: 0 for logs that are the same, 3 for logs that part, 8 for a line that is none of a log, 1 where a file could not be read or the text not written.
fn status_of(err: Stderr, outcome: Result<Told, Failure>, first: &[u8], second: &[u8]) -> u64 {
    match outcome {
        Ok(Told::Same) => 0,
        Ok(Told::Parted) => 3,
        Err(Failure::Strange) => 8,
        Err(Failure::Unread(unread)) => {
            name_unread(err, unread, first, second);
            1
        }
        Err(Failure::Unwritten(why)) => unwritten(err, why),
        Err(Failure::Changed) => {
            named::say(err, b"parts", b"a log changed while it was read");
            1
        }
    }
}

fn source(file: &File) -> Source<'_> {
    Source {
        file,
        start: 0,
        most: u64::MAX,
    }
}

// A log is read more than once, which a pipe cannot be.
fn opened(rt: HostRuntime, name: &[u8]) -> Option<File> {
    let file = named::open(rt, b"parts", name)?;
    match named::seekable(&file) {
        Ok(()) => Some(file),
        Err(why) => {
            named::fail(rt.stderr(), b"parts", name, why);
            named::say(
                rt.stderr(),
                b"parts",
                b"a log is read more than once, so it must be a file and no pipe",
            );
            None
        }
    }
}

fn both_opened(rt: HostRuntime, first: &[u8], second: &[u8]) -> Option<(File, File)> {
    let f = opened(rt, first)?;
    let s = opened(rt, second)?;
    Some((f, s))
}

fn parted(rt: HostRuntime, first: &[u8], second: &[u8]) -> u64 {
    match both_opened(rt, first, second) {
        Some((f, s)) => {
            let outcome = parts_host::run(source(&f), first, source(&s), second, rt.stdout());
            status_of(rt.stderr(), outcome, first, second)
        }
        None => 1,
    }
}

fn named_files(rt: HostRuntime) -> u64 {
    let mut first = rooms::name();
    let mut second = rooms::name();
    let f = named::argument(rt, b"parts", 1, &mut first);
    let s = named::argument(rt, b"parts", 2, &mut second);
    parted(rt, &first[..f], &second[..s])
}

fn run(rt: HostRuntime) -> u64 {
    if named::words(&rt) != 3 {
        named::say(
            rt.stderr(),
            b"parts",
            b"two logs are held against each other: LOG LOG",
        );
        return 2;
    }
    named_files(rt)
}

fn main(rt: HostRuntime) -> ExitCode {
    told::status(run(rt))
}
