// One log, line by line: is each a line that the log can go on with.
ghost use Rattle.std.specs.Prelude.{◌≡◌};
ghost use Rattle.log_parts.specs.Judged.{judged_text};
ghost use Rattle.log_passes.specs.Taking.{taken_in};
ghost use Rattle.log_passes.specs.Judging.{judged_as, judged_in};

use crate::taking;
use crate::taking::Taken;
use log_parts::Judged;

// The last frame and cycle numbers, and the number of the next line, the first being 1.
#[derive(Clone, Copy)]
pub struct Judging {
    pub frames: Option<u64>,
    pub cycles: Option<u64>,
    pub place: u64,
}

// So many bytes were a line, and the log goes on behind them; more bytes are wanted; the log is over, and all its lines are good; the next line, whose first bytes these
// are, is none of a log.
#[derive(Clone, Copy)]
pub enum Look {
    Goes(usize),
    Wants,
    Over,
    Strange(usize),
}

#[derive(Clone, Copy)]
pub struct Judgement {
    pub judging: Judging,
    pub look: Look,
}

fn look_at(judging: Judging, look: Look) -> Judgement
    ensures { result ≡ record { judging = judging; look = look } }
{
    Judgement { judging, look }
}

fn judged_as(judging: Judging, used: usize, n: usize, judged: Option<Judged>) -> Judgement
    ensures { result ≡ judged_as judging used n judged }
{
    match judged {
        Some(good) => Judgement {
            judging: Judging {
                frames: good.frames,
                cycles: good.cycles,
                place: judging.place.saturating_add(1),
            },
            look: Look::Goes(used),
        },
        None => look_at(judging, Look::Strange(n)),
    }
}

// A line of n bytes, with which so many are used.
fn judge_text(judging: Judging, used: usize, n: usize, text: &[u8]) -> Judgement
    ensures { result ≡ judged_as judging used n (judged_text judging.frames judging.cycles text.now) }
{
    let judged = log_parts::judge(judging.frames, judging.cycles, text);
    judged_as(judging, used, n, judged)
}

// The next line of a log, from the bytes at hand; `ended` if none come behind them.
pub fn judge_next(judging: Judging, bytes: &[u8], ended: bool) -> Judgement
    ensures { result ≡ judged_in judging bytes.now (taken_in bytes.now ended) }
{
    match taking::line_of(bytes, ended) {
        Taken::Text(n, used) => judge_text(judging, used, n, &bytes[..n]),
        Taken::Nothing => look_at(judging, Look::Over),
        Taken::Wants => look_at(judging, Look::Wants),
        Taken::Long => look_at(judging, Look::Strange(76)),
    }
}
