// The three inputs of a recording, each behind a window. Proved: what is handed to `next` are the bytes at hand; behind its answer those are gone that it used, and the
// bytes of a read stand behind the others.
#![tactic(auto)]

ghost use Rattle.std.specs.Prelude.{◌≡◌, ◌^◌, ◌-◌, length};
ghost use Rattle.replay_inputs.specs.Inputs.{AllWithin, AllPassed, OneRead, WentOn, ended_at};

use pipes::reason::Reason;
use pipes::window;
use pipes::window::Window;
use recording::Header;
use replay_stream::{Answer, Bytes, Ended, Input};
use std::fs::File;

#[derive(Clone, Copy)]
pub struct Inputs {
    pub events: Window,
    pub far: Window,
    pub near: Window,
}

// The open files that the inputs are read from. Of one that is not there every read fails.
#[derive(Clone, Copy)]
pub struct Files<'a> {
    pub events: Option<&'a File>,
    pub far: Option<&'a File>,
    pub near: Option<&'a File>,
}

// How many bytes each input has at most.
#[derive(Clone, Copy)]
pub struct Most {
    pub events: u64,
    pub far: u64,
    pub near: u64,
}

impl Most {
    // No file has more.
    pub fn whole_files() -> Most
        ensures { (result.events ≡ 2 ^ 64 - 1) × (result.far ≡ 2 ^ 64 - 1) × (result.near ≡ 2 ^ 64 - 1) }
    {
        Most {
            events: u64::MAX,
            far: u64::MAX,
            near: u64::MAX,
        }
    }
}

// Behind the header no byte past what it announces is read.
pub fn announced(header: Header, most: Most) -> Inputs
    ensures { AllWithin result }
{
    let form = header.form;
    let offset = recording::offset_of(form) as u64;
    let entries = 16 * header.events as u64;
    Inputs {
        events: window::fresh(most.events.saturating_sub(offset).min(entries)),
        far: window::fresh(most.far.min(recording::bytes_of(form, header.far))),
        near: window::fresh(most.near.min(recording::bytes_of(form, header.near))),
    }
}

pub fn ended(inputs: Inputs) -> Ended
    ensures { result ≡ ended_at inputs }
{
    Ended {
        events: window::ended(inputs.events),
        far: window::ended(inputs.far),
        near: window::ended(inputs.near),
    }
}

// So many bytes of each are used.
fn past(inputs: Inputs, used: Bytes) -> Inputs
    requires { AllWithin inputs }
    ensures { AllPassed used inputs result }
{
    Inputs {
        events: window::past(inputs.events, used.events),
        far: window::past(inputs.far, used.far),
        near: window::past(inputs.near, used.near),
    }
}

// One read of the input that more is wanted of.
fn refill(
    inputs: Inputs,
    wanted: Input,
    files: &Files<'_>,
    events: &mut [u8],
    far: &mut [u8],
    near: &mut [u8],
) -> Inputs
    requires { (AllWithin inputs) × (length events.old ≡ 65536) × (length far.old ≡ 65536) × (length near.old ≡ 65536) }
    ensures { OneRead wanted inputs events.old far.old near.old result events.new far.new near.new }
{
    match wanted {
        Input::Entries => Inputs {
            events: window::refill(inputs.events, files.events, events),
            ..inputs
        },
        Input::FarSide => Inputs {
            far: window::refill(inputs.far, files.far, far),
            ..inputs
        },
        Input::NearSide => Inputs {
            near: window::refill(inputs.near, files.near, near),
            ..inputs
        },
    }
}

// Behind an answer: what it used is gone, and the input that it wants is read on.
pub fn go_on(
    inputs: Inputs,
    used: Bytes,
    answer: Answer,
    files: &Files<'_>,
    events: &mut [u8],
    far: &mut [u8],
    near: &mut [u8],
) -> Inputs
    requires { (AllWithin inputs) × (length events.old ≡ 65536) × (length far.old ≡ 65536) × (length near.old ≡ 65536) }
    ensures { WentOn answer used inputs events.old far.old near.old result events.new far.new near.new }
{
    let rest = past(inputs, used);
    match answer {
        Answer::Wants(input) => refill(rest, input, files, events, far, near),
        Answer::Says(_) | Answer::Silent | Answer::Over => rest,
    }
}

// The first input of which a read has failed, and why.
pub fn failed(inputs: Inputs) -> Option<(Input, Reason)> {
    if let Some(why) = inputs.events.failed {
        return Some((Input::Entries, why));
    }
    if let Some(why) = inputs.far.failed {
        return Some((Input::FarSide, why));
    }
    let why = inputs.near.failed?;
    Some((Input::NearSide, why))
}
