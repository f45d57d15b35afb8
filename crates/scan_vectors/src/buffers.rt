// The buffers that a scan is lent.
use scan_calls::rules;

pub type Envelope = [f32; 8519];

pub type Levels = [f32; 271];

pub type Window = [f32; 4519];

pub type Sums = [f64; 4520];

pub type Lags = [f64; 4249];

// Long enough for the largest scan, of 1,062 bins a second and ceiling 4,000; a smaller one is lent a part of each.
#[derive(Clone, Copy)]
pub struct Buffers {
    pub sums: Lags,
    pub scores: Lags,
    pub squares: Sums,
    pub prefix: Sums,
    pub window: Window,
    pub levels: Levels,
    pub envelope: Envelope,
}

impl Buffers {
    pub fn blank() -> Buffers {
        Buffers {
            envelope: [0.0; 8519],
            levels: [0.0; 271],
            window: [0.0; 4519],
            prefix: [0.0; 4520],
            squares: [0.0; 4520],
            scores: [0.0; 4249],
            sums: [0.0; 4249],
        }
    }

    // Before a scan is made every buffer is all 0, but for the envelope and the lag sums, which its making itself has to write, and the levels, of
    // which it has none.
    pub fn blank_scratch(&mut self) {
        self.window.fill(0.0);
        self.prefix.fill(0.0);
        self.squares.fill(0.0);
        self.scores.fill(0.0);
    }
}

// How much of each buffer a scan is lent.
#[derive(Clone, Copy)]
pub struct Lengths {
    pub envelope: u64,
    pub frame: u64,
    pub window: u64,
    pub sums: u64,
    pub lags: u64,
}

pub fn lengths_of(rate: u32, ceiling: u32) -> Lengths {
    let g = rules::geometry_of(rate, ceiling);
    let window = g.frame + g.span;
    Lengths {
        envelope: rules::envelope_len(scan_calls::SLACK, g),
        frame: g.frame,
        window,
        sums: window + 1,
        lags: rules::lags(g),
    }
}
