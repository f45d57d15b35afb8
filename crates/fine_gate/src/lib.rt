// The fine stage's frames: takes near samples, gates a full near frame, and gates the retained frame again.
// The state goes in by value and comes back by value; frames and far window are lent. No public call has a `requires`: a bad call is refused by number,
// hands back the state that it was given and writes no buffer. Each contract is one equation with a definition of specs/Gate.antt.
#![tactic(auto)]

ghost use Rattle.std.specs.Prelude.{◌≡◌, ◌<◌, length};
ghost use Rattle.fine.specs.State.{lengths_of};
ghost use Rattle.fine_gate.specs.Gate;
ghost use Rattle.fine_gate.specs.Gate.{near_push, near_refusal, took_one, pushed_near, energy_of, passage, gating, is_frame, rescan_lengths, gate_lengths, gate_refusal, passed, gated, rescan_answer, rescan_refusal, rescanned_by, rescanned};

use fine::{Fine, Frames, Lengths};

// A frame is silent if either side has less energy than this.
const FRAME_ENERGY_FLOOR: f64 = 1e-8;

// At most this part of the frame may be missing at the far window's end.
const TAIL_DEFICIT_LIMIT_DEN: u64 = 4;

// What a gate makes of a frame and its far window.
#[derive(Clone, Copy)]
pub enum Passage {
    Skipped,
    Silent,
    Taken,
}

// ---- answers. A refusal carries its number (SPECIFICATION 3).

// Answers a near sample: it was taken, or taken as the frame's last.
#[derive(Clone, Copy)]
pub enum Taking {
    Refused(u8),
    Taken,
    Full,
}

// Answers the gate on a near frame. From the second taken frame on, the host asks for the peak.
#[derive(Clone, Copy)]
pub enum GateAnswer {
    Refused(u8),
    Skipped,
    Silent,
    First,
    Later,
}

// Answers the gate on the retained frame.
#[derive(Clone, Copy)]
pub enum RescanAnswer {
    Refused(u8),
    NothingRetained,
    Skipped,
    Silent,
    Taken,
}

// ---- the state that comes back, with the answer

#[derive(Clone, Copy)]
pub struct Took {
    pub fine: Fine,
    pub answer: Taking,
}

#[derive(Clone, Copy)]
pub struct Gated {
    pub fine: Fine,
    pub answer: GateAnswer,
}

#[derive(Clone, Copy)]
pub struct Rescanned {
    pub fine: Fine,
    pub answer: RescanAnswer,
}

// ---- the lengths of what is lent. `due` is what the span gives.

fn is_frame(span: u32, due: Lengths, len: usize) -> bool
    requires { due ≡ lengths_of span }
    ensures { result ≡ is_frame span len }
{
    len as u64 == due.frame
}

// Tells whether a retained frame and a far window have their lengths.
fn fits_rescan(span: u32, due: Lengths, retained_len: usize, far_len: usize) -> bool
    requires { due ≡ lengths_of span }
    ensures { result ≡ rescan_lengths span retained_len far_len }
{
    is_frame(span, due, retained_len) && far_len as u64 == due.frame + span as u64
}

// Tells whether a near frame, a retained frame and a far window have their lengths.
fn fits_gate(span: u32, due: Lengths, near_len: usize, retained_len: usize, far_len: usize) -> bool
    requires { due ≡ lengths_of span }
    ensures { result ≡ gate_lengths span near_len retained_len far_len }
{
    is_frame(span, due, near_len) && fits_rescan(span, due, retained_len, far_len)
}

// ---- a near sample

fn near_refusal(fine: Fine, near_len: usize, sample: f32) -> u8
    ensures { result ≡ near_refusal fine near_len sample }
{
    let due = Lengths::of(fine.lengths.span);
    let fitting = is_frame(fine.lengths.span, due, near_len);
    let earlier = fine.first_refusals(due, fitting);
    if earlier != 0 {
        return earlier;
    }
    if fine.frames.len == fine.lengths.frame {
        return answers::FRAME_WAITS;
    }
    if !floats::is_finite32(sample) {
        return answers::NOT_FINITE;
    }
    0
}

fn took_one(fine: Fine) -> Took
    requires { fine.frames.len < fine.lengths.frame }
    ensures { result ≡ took_one fine }
{
    let len = fine.frames.len + 1;
    let longer = fine.with_frames(Frames { len, ..fine.frames });
    if len == fine.lengths.frame {
        return Took {
            fine: longer,
            answer: Taking::Full,
        };
    }
    Took {
        fine: longer,
        answer: Taking::Taken,
    }
}

// Appends one near sample to the near frame.
pub fn push_near(fine: Fine, near: &mut [f32], sample: f32) -> Took
    ensures { near_push result near.new ≡ pushed_near fine near.old sample }
{
    let refusal = near_refusal(fine, near.len(), sample);
    if refusal != 0 {
        return Took {
            fine,
            answer: Taking::Refused(refusal),
        };
    }
    near[fine.frames.len as usize] = sample;
    took_one(fine)
}

// ---- the gate

// Tells whether a frame is skipped: some of its window's head is missing, or too much of its tail.
fn skips(fine: Fine, missing_head: u64, missing_tail: u64) -> bool
    ensures { result ≡ Gate.skips fine missing_head missing_tail }
{
    missing_head > 0 || missing_tail > fine.lengths.frame / TAIL_DEFICIT_LIMIT_DEN
}

// Sums the squares, in order.
fn energy(xs: &[f32]) -> f64
    ensures { result ≡ energy_of xs.now }
{
    let mut sum = 0.0;
    for &sample in xs {
        let x = f64::from(sample);
        sum += x * x;
    }
    sum
}

fn silent(near: &[f32], far: &[f32]) -> bool
    ensures { result ≡ Gate.silent near.now far.now }
{
    energy(near) < FRAME_ENERGY_FLOOR || energy(far) < FRAME_ENERGY_FLOOR
}

fn judge(fine: Fine, near: &[f32], far: &[f32], missing_head: u64, missing_tail: u64) -> Passage
    ensures { result ≡ passage fine near.now far.now missing_head missing_tail }
{
    if skips(fine, missing_head, missing_tail) {
        return Passage::Skipped;
    }
    if silent(near, far) {
        return Passage::Silent;
    }
    Passage::Taken
}

// Tells whether what the gate reads is finite. A gate that skips reads nothing.
fn readable(fine: Fine, near: &[f32], far: &[f32], missing_head: u64, missing_tail: u64) -> bool
    ensures { result ≡ Gate.readable fine near.now far.now missing_head missing_tail }
{
    if skips(fine, missing_head, missing_tail) {
        return true;
    }
    folds::all_finite(near) && folds::all_finite(far)
}

fn gate_refusal(
    fine: Fine,
    near: &[f32],
    retained_len: usize,
    far: &[f32],
    missing_head: u64,
    missing_tail: u64,
) -> u8
    ensures { result ≡ gate_refusal fine near.now retained_len far.now missing_head missing_tail }
{
    let due = Lengths::of(fine.lengths.span);
    let fitting = fits_gate(fine.lengths.span, due, near.len(), retained_len, far.len());
    let earlier = fine.first_refusals(due, fitting);
    if earlier != 0 {
        return earlier;
    }
    if fine.frames.len != fine.lengths.frame {
        return answers::NO_FULL_FRAME;
    }
    if !readable(fine, near, far, missing_head, missing_tail) {
        return answers::NOT_FINITE;
    }
    0
}

// Consumes the near frame, whatever became of it.
fn consume(frames: Frames, passage: Passage) -> Frames
    ensures { result ≡ Gate.consumed frames passage }
{
    match passage {
        Passage::Skipped => Frames {
            len: 0,
            retained: false,
            skipped: frames.skipped.saturating_add(1),
            ..frames
        },
        Passage::Silent => Frames {
            len: 0,
            retained: false,
            ..frames
        },
        Passage::Taken => Frames {
            len: 0,
            retained: true,
            taken: frames.taken.saturating_add(1),
            ..frames
        },
    }
}

fn gate_answer(frames: Frames, passage: Passage) -> GateAnswer
    ensures { result ≡ Gate.gate_answer frames passage }
{
    match passage {
        Passage::Skipped => GateAnswer::Skipped,
        Passage::Silent => GateAnswer::Silent,
        Passage::Taken => if frames.taken == 0 {
            GateAnswer::First
        } else {
            GateAnswer::Later
        },
    }
}

fn passed(fine: Fine, passage: Passage) -> Gated
    ensures { result ≡ Gate.passed fine passage }
{
    Gated {
        fine: fine.with_frames(consume(fine.frames, passage)),
        answer: gate_answer(fine.frames, passage),
    }
}

// Copies a frame. (`copy_from_slice` would be a call of memmove.)
fn copy(from: &[f32], to: &mut [f32])
    requires { length from.now ≡ length to.old }
    ensures { to.new ≡ from.now }
{
    for i in 0..from.len() {
        to[i] = from[i];
    }
}

// Retains a taken frame.
fn retain(passage: Passage, near: &[f32], retained: &mut [f32])
    requires { length near.now ≡ length retained.old }
    ensures { retained.new ≡ Gate.retained_by passage near.now retained.old }
{
    match passage {
        Passage::Skipped | Passage::Silent => {}
        Passage::Taken => copy(near, retained),
    }
}

// Says whether the full near frame counts, and consumes it.
pub fn gate(
    fine: Fine,
    near: &[f32],
    retained: &mut [f32],
    far: &[f32],
    missing_head: u64,
    missing_tail: u64,
) -> Gated
    ensures { gating result retained.new ≡ gated fine near.now retained.old far.now missing_head missing_tail }
{
    let refusal = gate_refusal(fine, near, retained.len(), far, missing_head, missing_tail);
    if refusal != 0 {
        return Gated {
            fine,
            answer: GateAnswer::Refused(refusal),
        };
    }
    let passage = judge(fine, near, far, missing_head, missing_tail);
    retain(passage, near, retained);
    passed(fine, passage)
}

// ---- the rescan

fn rescan_refusal(
    fine: Fine,
    retained: &[f32],
    far: &[f32],
    missing_head: u64,
    missing_tail: u64,
) -> u8
    ensures { result ≡ rescan_refusal fine retained.now far.now missing_head missing_tail }
{
    let due = Lengths::of(fine.lengths.span);
    let fitting = fits_rescan(fine.lengths.span, due, retained.len(), far.len());
    let earlier = fine.first_refusals(due, fitting);
    if earlier != 0 {
        return earlier;
    }
    if !fine.frames.retained {
        return 0;
    }
    if !readable(fine, retained, far, missing_head, missing_tail) {
        return answers::NOT_FINITE;
    }
    0
}

fn rescan_answer(passage: Passage) -> RescanAnswer
    ensures { result ≡ rescan_answer passage }
{
    match passage {
        Passage::Skipped => RescanAnswer::Skipped,
        Passage::Silent => RescanAnswer::Silent,
        Passage::Taken => RescanAnswer::Taken,
    }
}

// Says whether the retained frame counts with another far window. Counts nothing and forgets nothing.
pub fn rescan(
    fine: Fine,
    retained: &[f32],
    far: &[f32],
    missing_head: u64,
    missing_tail: u64,
) -> Rescanned
    ensures { result ≡ Gate.rescanned fine retained.now far.now missing_head missing_tail }
{
    let refusal = rescan_refusal(fine, retained, far, missing_head, missing_tail);
    if refusal != 0 {
        return Rescanned {
            fine,
            answer: RescanAnswer::Refused(refusal),
        };
    }
    if !fine.frames.retained {
        return Rescanned {
            fine,
            answer: RescanAnswer::NothingRetained,
        };
    }
    let passage = judge(fine, retained, far, missing_head, missing_tail);
    Rescanned {
        fine,
        answer: rescan_answer(passage),
    }
}
