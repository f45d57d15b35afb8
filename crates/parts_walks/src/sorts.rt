// Both logs by one sort of lines, to their ends.
ghost use Rattle.std.specs.Prelude.{◌≡◌, length};
ghost use Rattle.parts_walks.specs.Inputs.{BothWithin};
ghost use Rattle.parts_walks.specs.Counted.{count_opened, count_answered, CountTurned, CountWalked};

use crate::inputs;
use crate::inputs::{Inputs, Log, Logs};
use log_parts::Sort;
use log_passes::passing;
use log_passes::passing::{Need, Pass, Step};

// Where the two stand, and what was needed last.
#[derive(Clone, Copy)]
pub struct Walk {
    pub pass: Pass,
    pub inputs: Inputs,
    pub need: Need,
}

pub fn opening(inputs: Inputs) -> Walk
    requires { BothWithin inputs }
    ensures { (result ≡ count_opened inputs) × (BothWithin result.inputs) }
{
    Walk {
        pass: passing::fresh(),
        inputs,
        need: Need::Goes,
    }
}

// What is answered of the bytes at hand.
fn ask(sort: Sort, pass: Pass, inputs: Inputs, first: &[u8], second: &[u8]) -> Step
    requires { (BothWithin inputs) × (length first.now ≡ 65536) × (length second.now ≡ 65536) }
    ensures { result ≡ count_answered sort pass inputs first.now second.now }
{
    let f = inputs.first.at;
    let f_end = inputs.first.end;
    let s = inputs.second.at;
    let s_end = inputs.second.end;
    passing::pass_next(
        sort,
        pass,
        &first[f..f_end],
        inputs.first.left == 0,
        &second[s..s_end],
        inputs.second.left == 0,
    )
}

// Which log is to be read on.
fn read_on(need: Need) -> Option<Log> {
    match need {
        Need::WantsFirst => Some(Log::First),
        Need::WantsSecond => Some(Log::Second),
        Need::Goes | Need::Over | Need::Strange => None,
    }
}

// What is answered is done: bytes are used, or more of one log read.
fn turn(sort: Sort, walk: Walk, logs: &Logs<'_>, first: &mut [u8], second: &mut [u8]) -> Walk
    requires { (BothWithin walk.inputs) × (length first.old ≡ 65536) × (length second.old ≡ 65536) }
    ensures { CountTurned sort walk first.old second.old result first.new second.new }
{
    let Step {
        pass,
        first_used,
        second_used,
        need,
    } = ask(sort, walk.pass, walk.inputs, first, second);
    let inputs = inputs::go_on(
        walk.inputs,
        first_used,
        second_used,
        read_on(need),
        logs,
        first,
        second,
    );
    Walk { pass, inputs, need }
}

fn wanted(need: Need) -> bool {
    matches!(need, Need::Goes | Need::WantsFirst | Need::WantsSecond)
}

// Until nothing more is asked for, or a read fails.
fn goes_on(walk: Walk) -> bool {
    inputs::failed(walk.inputs).is_none() && wanted(walk.need)
}

// The turns are counted so that the loop ends for certain: 2^64 of them take centuries.
pub fn all(sort: Sort, begun: Walk, logs: &Logs<'_>, first: &mut [u8], second: &mut [u8]) -> Walk
    requires { (BothWithin begun.inputs) × (length first.old ≡ 65536) × (length second.old ≡ 65536) }
    ensures { CountWalked sort begun first.old second.old result first.new second.new }
{
    let mut walk = begun;
    for _ in 0..u64::MAX {
        if !goes_on(walk) {
            return walk;
        }
        walk = turn(sort, walk, logs, first, second);
    }
    walk
}
