// Near samples of the fine stage in runs: one call takes a run and ends after the sample that completes the frame. The part that would be taken is checked first and as a
// whole; a refused run takes nothing. The call has no `requires`; what it does is defined in specs/Handover.
#![tactic(auto)]

ghost use Rattle.std.specs.Prelude.{◌≡◌, ◌+◌, ◌≤◌, length};
ghost use Rattle.std.proofs.Math.Seq.{paste};
ghost use Rattle.answers.specs.Pick.{pick};
ghost use Rattle.fine.specs.State.{span_of, full, first_refusals};
ghost use Rattle.fine_gate.specs.Gate.{is_frame};
ghost use Rattle.fine_handover.specs.declared.RunTaking.TheVariants as RunTaking;
ghost use Rattle.fine_handover.specs.Handover;
ghost use Rattle.fine_handover.specs.Ready.{longer_by};

use fine::{Fine, Frames, Lengths};

// Answers a run: refused, taken, or taken up to the frame's last sample; with the number of samples taken.
#[derive(Clone, Copy)]
pub enum RunTaking {
    Refused(u8),
    Taken(usize),
    Full(usize),
}

// The state that comes back, with the answer.
#[derive(Clone, Copy)]
pub struct Handed {
    pub fine: Fine,
    pub answer: RunTaking,
}

// Gives refusals 1 to 3.
fn judge(fine: Fine, near_len: usize) -> u8
    ensures { result ≡ first_refusals fine (is_frame (span_of fine) near_len) }
{
    let due = Lengths::of(fine.lengths.span);
    fine.first_refusals(due, near_len as u64 == due.frame)
}

// Tells how many of the samples are taken.
fn takes(fine: Fine, samples: usize) -> usize
    ensures { result ≡ Handover.takes fine samples }
{
    let wants = fine.lengths.frame.saturating_sub(fine.frames.len);
    (samples as u64).min(wants) as usize
}

fn refusal(fine: Fine, near_len: usize, samples: &[f32]) -> u8
    ensures { result ≡ Handover.run_refusal fine near_len samples.now }
{
    let earlier = judge(fine, near_len);
    if earlier != 0 {
        return earlier;
    }
    if samples.len() == 0 {
        return 0;
    }
    if fine.frames.len == fine.lengths.frame {
        return answers::FRAME_WAITS;
    }
    let end = takes(fine, samples.len());
    if !folds::all_finite(&samples[..end]) {
        return answers::NOT_FINITE;
    }
    0
}

// Puts the first n samples into the frame, from one place on. (`copy_from_slice` would be a call of memmove.)
fn fill(near: &mut [f32], at: usize, samples: &[f32], n: usize)
    requires { (at + n ≤ length near.old) × (n ≤ length samples.now) }
    ensures { near.new ≡ paste near.old at samples.now n }
{
    for i in 0..n {
        near[at + i] = samples[i];
    }
}

// Counts n samples in the state, and tells whether they completed the frame.
fn answered(fine: Fine, n: usize) -> Handed
    requires { fine.frames.len + n ≤ fine.lengths.frame }
    ensures { result ≡ record { fine = longer_by fine n; answer = pick (full (longer_by fine n)) (RunTaking.Full n) (RunTaking.Taken n) } }
{
    let len = fine.frames.len + n as u64;
    let longer = fine.with_frames(Frames { len, ..fine.frames });
    if len == fine.lengths.frame {
        return Handed {
            fine: longer,
            answer: RunTaking::Full(n),
        };
    }
    Handed {
        fine: longer,
        answer: RunTaking::Taken(n),
    }
}

// Takes consecutive near samples, up to the one that completes the frame.
pub fn push_near_run(fine: Fine, near: &mut [f32], samples: &[f32]) -> Handed
    ensures handed { result ≡ (Handover.handed fine near.old samples.now).handed }
    ensures near { near.new ≡ (Handover.handed fine near.old samples.now).near }
{
    let number = refusal(fine, near.len(), samples);
    if number != 0 {
        return Handed {
            fine,
            answer: RunTaking::Refused(number),
        };
    }
    if samples.len() == 0 {
        return Handed {
            fine,
            answer: RunTaking::Taken(0),
        };
    }
    let n = takes(fine, samples.len());
    fill(near, fine.frames.len as usize, samples, n);
    answered(fine, n)
}
