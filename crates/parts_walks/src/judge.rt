// One log is judged to its end, or to the first line that is none.
ghost use Rattle.std.specs.Prelude.{◌≡◌, length};
ghost use Rattle.pipes.specs.Window.{Within};
ghost use Rattle.parts_walks.specs.Judged.{judge_opened, judge_answered, Heeded, JudgeTurned, JudgeWalked};

use log_passes::judging;
use log_passes::judging::{Judgement, Judging, Look};
use pipes::window;
use pipes::window::Window;
use std::fs::File;

// Where the judge stands, and what was said last.
#[derive(Clone, Copy)]
pub struct Stand {
    pub judging: Judging,
    pub window: Window,
    pub look: Look,
}

pub fn opening(window: Window) -> Stand
    requires { Within window }
    ensures { (result ≡ judge_opened window) × (Within result.window) }
{
    Stand {
        judging: Judging {
            frames: None,
            cycles: None,
            place: 1,
        },
        window,
        look: Look::Wants,
    }
}

// What is answered of the bytes at hand.
fn ask(judging: Judging, window: Window, room: &[u8]) -> Judgement
    requires { (Within window) × (length room.now ≡ 65536) }
    ensures { result ≡ judge_answered judging window room.now }
{
    judging::judge_next(judging, &room[window.at..window.end], window.left == 0)
}

// What was answered is done: bytes are used, or more of them read.
fn heed(look: Look, window: Window, from: &File, room: &mut [u8]) -> Window
    requires { (Within window) × (length room.old ≡ 65536) }
    ensures { Heeded look window room.old result room.new }
{
    match look {
        Look::Goes(used) => window::past(window, used),
        Look::Wants => window::refill(window, Some(from), room),
        Look::Over => window,
        Look::Strange(_n) => window,
    }
}

fn turn(stand: Stand, from: &File, room: &mut [u8]) -> Stand
    requires { (Within stand.window) × (length room.old ≡ 65536) }
    ensures { (Within result.window) × (JudgeTurned stand room.old result room.new) }
{
    let Judgement { judging, look } = ask(stand.judging, stand.window, room);
    let window = heed(look, stand.window, from, room);
    Stand {
        judging,
        window,
        look,
    }
}

fn wanted(look: Look) -> bool {
    matches!(look, Look::Goes(_) | Look::Wants)
}

// Until the log is over, a line is none, or a read fails.
fn goes_on(stand: Stand) -> bool {
    stand.window.failed.is_none() && wanted(stand.look)
}

// The turns are counted so that the loop ends for certain: 2^64 of them take centuries.
pub fn all(first: Stand, from: &File, room: &mut [u8]) -> Stand
    requires { (Within first.window) × (length room.old ≡ 65536) }
    ensures { (Within result.window) × (JudgeWalked first room.old result room.new) }
{
    let mut stand = first;
    for _ in 0..u64::MAX {
        if !goes_on(stand) {
            return stand;
        }
        stand = turn(stand, from, room);
    }
    stand
}
