// Near samples in runs (request a): one call takes a run with its first index and ends after the sample that completes a frame. The part that would be taken is
// checked first and as a whole; a refused run takes nothing. The call has no `requires`; what it does is defined in specs/Handover.
#![tactic(auto)]

mod part; // the part that would be taken
mod fill; // its samples go into the frame

ghost use Rattle.std.specs.Prelude.{◌≡◌, eqb, length};
ghost use Rattle.answers.specs.Pick.{pick};
ghost use Rattle.scan.specs.Bins.{near_len};
ghost use Rattle.scan.specs.Calls.{with_near};
ghost use Rattle.scan.specs.State.{due, first_refusals, full};
ghost use Rattle.scan_handover.specs.declared.RunTaking.TheVariants as RunTaking;
ghost use Rattle.scan_handover.specs.Handover;
ghost use Rattle.scan_handover.specs.Ready.{HandsOver};

use scan::{Near, Scan};
use scan_calls::{parts, rules};
use scan_push::near;

// Of a run: refused, ignored by a finished scan, taken, or taken up to the frame's last sample; with the number of its samples that were ignored or taken.
#[derive(Clone, Copy)]
pub enum RunTaking {
    Refused(u8),
    Ignored(usize),
    Taken(usize),
    Full(usize),
}

// The state that comes back, with the answer.
#[derive(Clone, Copy)]
pub struct Handed {
    pub scan: Scan,
    pub answer: RunTaking,
}

// 1 to 3.
fn judge(scan: Scan, levels: &[f32]) -> u8
    ensures { result ≡ first_refusals scan (eqb (length levels.now) (near_len (due scan))) }
{
    let due = rules::geometry_of(scan.geometry.rate, scan.geometry.ceiling);
    rules::first_refusals(scan, due, levels.len() as u64 == due.frame)
}

// The state after n samples were taken, and whether the frame is full.
fn answered(scan: Scan, near: Near, n: usize) -> Handed
    ensures { result ≡ record { scan = with_near scan near; answer = pick (full scan.geometry near) (RunTaking.Full n) (RunTaking.Taken n) } }
{
    let with = parts::with_near(scan, near);
    if near.len == scan.geometry.frame {
        return Handed {
            scan: with,
            answer: RunTaking::Full(n),
        };
    }
    Handed {
        scan: with,
        answer: RunTaking::Taken(n),
    }
}

// A run of at least one sample, in a state that was judged.
fn hand_over(scan: Scan, levels: &mut [f32], samples: &[f32], first: u64) -> Handed
    requires { HandsOver scan levels.old samples.now }
    ensures handed { result ≡ (Handover.handed scan levels.old samples.now first).handed }
    ensures levels { levels.new ≡ (Handover.handed scan levels.old samples.now first).levels }
{
    let g = scan.geometry;
    let held = near::held_at(scan.near, first);
    let lead = part::lead(g, held, first);
    let end = part::takes(g, held, lead, samples.len());
    let n = part::refusal(samples, first, lead, end);
    if n != 0 {
        return Handed {
            scan,
            answer: RunTaking::Refused(n),
        };
    }
    let filled = fill::between(g, held, levels, samples, first, lead, end);
    answered(scan, filled, end)
}

// Near samples of consecutive indices, from `first` on.
pub fn push_near_run(scan: Scan, levels: &mut [f32], samples: &[f32], first: u64) -> Handed
    ensures handed { result ≡ (Handover.handed scan levels.old samples.now first).handed }
    ensures levels { levels.new ≡ (Handover.handed scan levels.old samples.now first).levels }
{
    let n = judge(scan, levels);
    if n != 0 {
        return Handed {
            scan,
            answer: RunTaking::Refused(n),
        };
    }
    if samples.is_empty() {
        return Handed {
            scan,
            answer: RunTaking::Taken(0),
        };
    }
    if rules::finished(scan.verdict) {
        return Handed {
            scan,
            answer: RunTaking::Ignored(samples.len()),
        };
    }
    if scan.near.len == scan.geometry.frame {
        return Handed {
            scan,
            answer: RunTaking::Refused(answers::FRAME_WAITS),
        };
    }
    hand_over(scan, levels, samples, first)
}
