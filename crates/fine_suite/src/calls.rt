// The calls of records.
use crate::host::Host;
use crate::records::{Call, Kind};
use answers::Change;
use fine::{Changed, Fine, Frames, Scans};
use fine_gate::{GateAnswer, RescanAnswer, Taking};
use units::Samples;
use vectors::buffers::{first, first_mut};

// The state after a call, and the answer as a record has it.
#[derive(Clone, Copy)]
pub struct Done {
    pub fine: Fine,
    pub answer: u64,
}

// No record has it: a refusal.
pub const REFUSED: u64 = 99;

// ---- a making, a restart, a relocation, a reset, and counts that a record makes up

fn changed(c: Changed) -> Done {
    let answer = match c.answer {
        Change::Refused(_) => REFUSED,
        Change::Done => 0,
    };
    Done {
        fine: c.fine,
        answer,
    }
}

fn made_up(fine: Fine, call: Call) -> Fine {
    Fine {
        frames: Frames {
            taken: call.count,
            skipped: (call.number % 0x1_0000_0000) as u32,
            ..fine.frames
        },
        scans: Scans {
            count: call.place,
            ..fine.scans
        },
        ..fine
    }
}

// ---- near samples

fn taking_number(answer: Taking) -> u64 {
    match answer {
        Taking::Refused(_) => REFUSED,
        Taking::Taken => 0,
        Taking::Full => 1,
    }
}

fn push_near(fine: Fine, frame: &mut [f32], sample: f32) -> Done {
    let took = fine_gate::push_near(fine, frame, sample);
    Done {
        fine: took.fine,
        answer: taking_number(took.answer),
    }
}

// A run of near samples; its answer is that of the last.
fn push_run(fine: Fine, frame: &mut [f32], call: Call) -> Done {
    let mut done = Done { fine, answer: 0 };
    for i in 0..call.count as u64 {
        let sample = call.signal.at(call.place.wrapping_add(i));
        done = push_near(done.fine, &mut *frame, sample);
    }
    done
}

fn push_one(fine: Fine, frame: &mut [f32], call: Call) -> Done {
    let sample = floats::bits::float32((call.number % 0x1_0000_0000) as u32);
    push_near(fine, frame, sample)
}

// ---- the gate on the near frame and on the retained one

fn gate_number(answer: GateAnswer) -> u64 {
    match answer {
        GateAnswer::Refused(_) => REFUSED,
        GateAnswer::Skipped => 1,
        GateAnswer::Silent => 2,
        GateAnswer::First => 3,
        GateAnswer::Later => 4,
    }
}

fn rescan_number(answer: RescanAnswer) -> u64 {
    match answer {
        RescanAnswer::Refused(_) => REFUSED,
        RescanAnswer::NothingRetained => 0,
        RescanAnswer::Skipped => 1,
        RescanAnswer::Silent => 2,
        RescanAnswer::Taken => 4,
    }
}

fn gate(fine: Fine, host: &mut Host, call: Call) -> Done {
    let gated = fine_gate::gate(
        fine,
        first(&host.near, fine.lengths.frame),
        first_mut(&mut host.retained, fine.lengths.frame),
        first(&host.far, fine.lengths.transform),
        call.count as u64,
        call.number,
    );
    Done {
        fine: gated.fine,
        answer: gate_number(gated.answer),
    }
}

fn rescan(fine: Fine, host: &Host, call: Call) -> Done {
    let scanned = fine_gate::rescan(
        fine,
        first(&host.retained, fine.lengths.frame),
        first(&host.far, fine.lengths.transform),
        call.count as u64,
        call.number,
    );
    Done {
        fine: scanned.fine,
        answer: rescan_number(scanned.answer),
    }
}

// ---- the call of a record, up to the peak rule

pub fn called(fine: Fine, host: &mut Host, call: Call) -> Done {
    match call.kind {
        Kind::New => changed(Fine::new(call.count)),
        Kind::PushRun => push_run(fine, first_mut(&mut host.near, fine.lengths.frame), call),
        Kind::PushOne => push_one(fine, first_mut(&mut host.near, fine.lengths.frame), call),
        Kind::Gate => gate(fine, host, call),
        Kind::Rescan => rescan(fine, host, call),
        Kind::Restart => changed(fine.restart()),
        Kind::Relocate => changed(fine.relocate(Samples(call.number))),
        Kind::Reset => changed(fine.reset()),
        Kind::Counts => Done {
            fine: made_up(fine, call),
            answer: 0,
        },
        _ => Done { fine, answer: 0 },
    }
}
