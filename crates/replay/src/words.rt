// How the answers of scan and tracker read in a log.
ghost use Rattle.std.specs.Prelude.{◌≡◌};
ghost use Rattle.replay.specs.Words.{word_of, trigger_of, cycle_line, cycles_after};

use floats::bits;
use log_lines::{Line, Word};
use scan::Frame;
use tracker::{Trigger, Verdict};

pub fn word_of(frame: Frame) -> Word
    ensures { result ≡ word_of frame }
{
    match frame {
        Frame::Uncovered => Word::Uncovered,
        Frame::Ahead => Word::Ahead,
        Frame::Quiet => Word::Quiet,
        Frame::Flat => Word::Flat,
        Frame::Banked(peak) => Word::Banked(bits::pattern32(peak)),
        Frame::Weak => Word::Weak,
        Frame::Ceiling => Word::Ceiling,
        Frame::Crowded => Word::Crowded,
        Frame::Region(region) => Word::Region(region.delay.0, bits::pattern64(region.correlation)),
    }
}

fn trigger_of(trigger: Trigger) -> log_lines::Trigger
    ensures { result ≡ trigger_of trigger }
{
    match trigger {
        Trigger::Edge => log_lines::Trigger::Edge,
        Trigger::Lost => log_lines::Trigger::Lost,
        Trigger::Jump => log_lines::Trigger::Jump,
        Trigger::Seam => log_lines::Trigger::Seam,
    }
}

pub fn cycle_line(event: u32, cycle: u64, verdict: Verdict) -> Line
    ensures { result ≡ cycle_line event cycle verdict }
{
    match verdict {
        Verdict::Refused(number) => Line::Refused(event, number),
        Verdict::Hold => Line::Cycle(cycle, log_lines::Verdict::Hold),
        Verdict::Move(alignment) => Line::Cycle(cycle, log_lines::Verdict::Move(alignment.0)),
        Verdict::Reacquire(trigger) => Line::Cycle(
            cycle,
            log_lines::Verdict::Reacquire(trigger_of(trigger)),
        ),
    }
}

// A refused cycle takes no number.
pub fn cycles_after(cycle: u64, verdict: Verdict) -> u64
    ensures { result ≡ cycles_after cycle verdict }
{
    let next = cycle.saturating_add(1);
    match verdict {
        Verdict::Refused(_) => cycle,
        Verdict::Hold => next,
        Verdict::Move(_) => next,
        Verdict::Reacquire(_) => next,
    }
}
