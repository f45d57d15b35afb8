// A recording replayed from inputs that arrive in pieces: the types of a call that does no input or output. specs/Stream.antt says what the call answers, specs/Hosts.antt
// what a host does with it, and the theorem `streamed_log` (proofs/Whole.antt) that the host then gets the log.
#![tactic(auto)]

ghost use Rattle.std.specs.Prelude.{◌≡◌, ◌+◌, ◌^◌, ◌<◌};
ghost use Rattle.replay_stream.specs.Stream.{bytes_used};

use log_lines::Line;
use replay::Session;

// Midway: near event number `event` has so many samples still to be played, the next one with this index.
#[derive(Clone, Copy)]
pub enum Stage {
    Opening,
    Events,
    Midway { event: u32, index: u64, left: u32 },
    Closed,
}

// `number` is that of the next event to be read.
#[derive(Clone, Copy)]
pub struct Place {
    pub number: u32,
    pub stage: Stage,
    pub session: Session,
}

// How many bytes of each input are used.
#[derive(Clone, Copy)]
pub struct Bytes {
    pub events: usize,
    pub far: usize,
    pub near: usize,
}

impl Bytes {
    // Those of two turns, one behind the other.
    pub fn plus(self, more: Bytes) -> Bytes
        requires { (self.events + more.events < 2 ^ 64) × (self.far + more.far < 2 ^ 64) × (self.near + more.near < 2 ^ 64) }
        ensures { result ≡ bytes_used (self.events + more.events) (self.far + more.far) (self.near + more.near) }
    {
        Bytes {
            events: self.events + more.events,
            far: self.far + more.far,
            near: self.near + more.near,
        }
    }
}

#[derive(Clone, Copy)]
pub enum Input {
    Entries,
    FarSide,
    NearSide,
}

// Silent: an event was played that logs nothing. No call for the next line answers this.
#[derive(Clone, Copy)]
pub enum Answer {
    Says(Line),
    Silent,
    Wants(Input),
    Over,
}

// No byte comes behind those at hand.
#[derive(Clone, Copy)]
pub struct Ended {
    pub events: bool,
    pub far: bool,
    pub near: bool,
}

// Where the stream stands, what is answered, and how many bytes of each input were used.
#[derive(Clone, Copy)]
pub struct Turned {
    pub place: Place,
    pub answer: Answer,
    pub used: Bytes,
}
