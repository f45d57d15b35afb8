// Makes a recording of two WAVE files. `./record` is its front, and names every word:
//
//   record_main FAR NEAR FAR-CHANNEL NEAR-CHANNEL CEILING START FOLDER FOLDER/far FOLDER/near FOLDER/events
//
// The first channel is 1, and 0 stands for the only one. Both sounds are judged before anything is made. The events are written last, so that a folder that was left
// half-made is no recording.
#![tactic(auto)]

mod entries;
mod numbers;
mod sides;
mod sounds;
mod words;

use pipes::{named, rooms, told};
use recording_make::{Misfit, Plan};
use sounds::Source;
use std::io::Stderr;
use std::process::ExitCode;

fn make_side(rt: HostRuntime, from: &Source, name: &[u8], argument: usize) -> bool {
    let mut room = rooms::name();
    let n = named::argument(rt, b"record", argument, &mut room);
    match named::create(rt, b"record", &room[..n]) {
        Some(to) => sides::copy(rt.stderr(), from, name, &to, &room[..n]),
        None => false,
    }
}

fn make_events(rt: HostRuntime, p: Plan) -> bool {
    let mut room = rooms::name();
    let n = named::argument(rt, b"record", 10, &mut room);
    let Some(to) = named::create(rt, b"record", &room[..n]) else {
        return false;
    };
    match entries::write(p, &to) {
        Ok(()) => true,
        Err(why) => {
            named::fail(rt.stderr(), b"record", &room[..n], why);
            false
        }
    }
}

fn make_folder(rt: HostRuntime) -> bool {
    let mut room = rooms::name();
    let n = named::argument(rt, b"record", 7, &mut room);
    named::make_folder(rt, b"record", &room[..n])
}

fn make(
    rt: HostRuntime,
    p: Plan,
    far: &Source,
    far_name: &[u8],
    near: &Source,
    near_name: &[u8],
) -> u64 {
    if !make_folder(rt) {
        return 1;
    }
    if !make_side(rt, far, far_name, 8) {
        return 1;
    }
    if !make_side(rt, near, near_name, 9) {
        return 1;
    }
    if make_events(rt, p) {
        return 0;
    }
    1
}

// Kinds and rates are named with the near file; what was asked for is a matter of how the command was called.
fn unlike(err: Stderr, misfit: Misfit, far_name: &[u8], near_name: &[u8]) -> u64 {
    match misfit {
        Misfit::OtherKinds => {
            words::beside(
                err,
                near_name,
                far_name,
                b"one has 16-bit samples and the other floats: ",
            );
            1
        }
        Misfit::OtherRates => {
            words::beside(err, near_name, far_name, b"their rates differ: ");
            1
        }
        Misfit::OtherCeiling => {
            named::say(err, b"record", b"--ceiling is 1 to 4000, in ms");
            2
        }
        Misfit::OtherStart => {
            named::say(
                err,
                b"record",
                b"--start is too large: an index would pass 2^62",
            );
            2
        }
    }
}

fn planned(rt: HostRuntime, far: &Source, far_name: &[u8], near: &Source, near_name: &[u8]) -> u64 {
    let ceiling = numbers::argument32(&rt, 5);
    let start = numbers::argument(&rt, 6);
    let played = far.sound;
    let heard = near.sound;
    match recording_make::plan_from(played, heard, ceiling, start) {
        Ok(p) => make(rt, p, far, far_name, near, near_name),
        Err(misfit) => unlike(rt.stderr(), misfit, far_name, near_name),
    }
}

fn recorded(rt: HostRuntime, far_name: &[u8], near_name: &[u8]) -> u64 {
    let Some(far) = sounds::open(rt, far_name, numbers::argument(&rt, 3)) else {
        return 1;
    };
    let Some(near) = sounds::open(rt, near_name, numbers::argument(&rt, 4)) else {
        return 1;
    };
    planned(rt, &far, far_name, &near, near_name)
}

fn named_files(rt: HostRuntime) -> u64 {
    let mut far = rooms::name();
    let mut near = rooms::name();
    let f = named::argument(rt, b"record", 1, &mut far);
    let n = named::argument(rt, b"record", 2, &mut near);
    recorded(rt, &far[..f], &near[..n])
}

fn run(rt: HostRuntime) -> u64 {
    if named::words(&rt) != 11 {
        named::say(
            rt.stderr(),
            b"record",
            b"ten words are asked for: ./record gives them",
        );
        return 2;
    }
    named_files(rt)
}

fn main(rt: HostRuntime) -> ExitCode {
    told::status(run(rt))
}
