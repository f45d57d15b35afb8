// Two microphones, one loudspeaker (request n): the state of a pair of scans over one far history, and what its calls return. The calls stand in crate scan_pair_calls;
// what each of them does is defined in specs/, by the scan's own definitions, and proofs/ says what each channel may rely on.
#![tactic(auto)]

use answers::Change;
use scan::{Far, Geometry, Near, Scoring, Taking, Verdict};

// The channel number is not 0 or 1.
pub const NO_SUCH_CHANNEL: u8 = 11;

// What a channel has of its own, beside its near levels and lag sums.
#[derive(Clone, Copy)]
pub struct Channel {
    pub near: Near,
    pub verdict: Verdict,
}

// The settings and the far history, which are common, and the two channels.
#[derive(Clone, Copy)]
pub struct Pair {
    pub geometry: Geometry,
    pub far: Far,
    pub first: Channel,
    pub second: Channel,
}

// ---- the state that comes back, with the answer

#[derive(Clone, Copy)]
pub struct PairChanged {
    pub pair: Pair,
    pub answer: Change,
}

#[derive(Clone, Copy)]
pub struct PairTook {
    pub pair: Pair,
    pub answer: Taking,
}

#[derive(Clone, Copy)]
pub struct PairScored {
    pub pair: Pair,
    pub answer: Scoring,
}
