// Both logs in their order, to the first line in which they are not the same.
ghost use Rattle.std.specs.Prelude.{◌≡◌, length};
ghost use Rattle.parts_walks.specs.Inputs.{BothWithin};
ghost use Rattle.parts_walks.specs.Ordered.{order_opened, order_answered, first_used, second_used, OrderTurned, OrderWalked};

use crate::inputs;
use crate::inputs::{Inputs, Log, Logs};
use log_passes::beside;
use log_passes::beside::{Ask, Beside};

// Where the two stand, and what was asked last.
#[derive(Clone, Copy)]
pub struct Walk {
    pub place: u64,
    pub inputs: Inputs,
    pub ask: Ask,
}

pub fn opening(inputs: Inputs) -> Walk
    requires { BothWithin inputs }
    ensures { (result ≡ order_opened inputs) × (BothWithin result.inputs) }
{
    Walk {
        place: 1,
        inputs,
        ask: Ask::WantsFirst,
    }
}

// What is answered of the bytes at hand.
fn ask(place: u64, inputs: Inputs, first: &[u8], second: &[u8]) -> Beside
    requires { (BothWithin inputs) × (length first.now ≡ 65536) × (length second.now ≡ 65536) }
    ensures { result ≡ order_answered place inputs first.now second.now }
{
    let f = inputs.first.at;
    let f_end = inputs.first.end;
    let s = inputs.second.at;
    let s_end = inputs.second.end;
    beside::beside_next(
        place,
        &first[f..f_end],
        inputs.first.left == 0,
        &second[s..s_end],
        inputs.second.left == 0,
    )
}

fn first_used(ask: Ask) -> usize
    ensures { result ≡ first_used ask }
{
    match ask {
        Ask::Goes(u, _v) => u,
        Ask::WantsFirst => 0,
        Ask::WantsSecond => 0,
        Ask::Same => 0,
        Ask::Apart => 0,
        Ask::Strange => 0,
    }
}

fn second_used(ask: Ask) -> usize
    ensures { result ≡ second_used ask }
{
    match ask {
        Ask::Goes(_u, v) => v,
        Ask::WantsFirst => 0,
        Ask::WantsSecond => 0,
        Ask::Same => 0,
        Ask::Apart => 0,
        Ask::Strange => 0,
    }
}

// Which log is to be read on.
fn read_on(ask: Ask) -> Option<Log> {
    match ask {
        Ask::WantsFirst => Some(Log::First),
        Ask::WantsSecond => Some(Log::Second),
        Ask::Goes(..) | Ask::Same | Ask::Apart | Ask::Strange => None,
    }
}

// What is answered is done: bytes are used, or more of one log read.
fn turn(walk: Walk, logs: &Logs<'_>, first: &mut [u8], second: &mut [u8]) -> Walk
    requires { (BothWithin walk.inputs) × (length first.old ≡ 65536) × (length second.old ≡ 65536) }
    ensures { OrderTurned walk first.old second.old result first.new second.new }
{
    let before = walk.inputs;
    let next = ask(walk.place, before, first, second);
    let asked = next.ask;
    let u = first_used(asked);
    let v = second_used(asked);
    let wanted = read_on(asked);
    let inputs = inputs::go_on(before, u, v, wanted, logs, first, second);
    Walk {
        place: next.place,
        inputs,
        ask: asked,
    }
}

fn wanted(ask: Ask) -> bool {
    matches!(ask, Ask::Goes(..) | Ask::WantsFirst | Ask::WantsSecond)
}

// Until nothing more is asked for, or a read fails.
fn goes_on(walk: Walk) -> bool {
    inputs::failed(walk.inputs).is_none() && wanted(walk.ask)
}

// The turns are counted so that the loop ends for certain: 2^64 of them take centuries.
pub fn all(begun: Walk, logs: &Logs<'_>, first: &mut [u8], second: &mut [u8]) -> Walk
    requires { (BothWithin begun.inputs) × (length first.old ≡ 65536) × (length second.old ≡ 65536) }
    ensures { OrderWalked begun first.old second.old result first.new second.new }
{
    let mut walk = begun;
    for _ in 0..u64::MAX {
        if !goes_on(walk) {
            return walk;
        }
        walk = turn(walk, logs, first, second);
    }
    walk
}
