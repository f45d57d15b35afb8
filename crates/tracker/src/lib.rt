// The delay tracker follows a locked delay and says when the lock has gone bad.
// The tracker goes in by value with each call and comes back by value. No public call has a `requires`: a bad call is refused by number and
// hands back the tracker that it was given. Each contract is one equation with a definition of specs/.
#![tactic(auto)]

ghost use Rattle.std.specs.Prelude.{◌≡◌, ◌≤◌};
ghost use Rattle.tracker.specs.Tracker.{below_limit, per_ms, bands_of, fresh, made, state_refusal, changed, evidence, seamed, jump_cycles, longest_run, suspected, unfinished, quiescent};
ghost use Rattle.tracker.specs.Cycle.{outside_bands, jumped, contradicts, confirmed, landing, at_limit, unconfident_cycle, edge_cycle, with_jumps, escalated, outside_cycle, interior_cycle, judged, cycle_refusal, cycled};

use answers::{Change, Count, Flag};
use units::Samples;

// What one concluded cycle observed.
#[derive(Clone, Copy)]
pub enum Outcome {
    Candidate { delay: Samples, interior: bool },
    Unconfident,
}

// Why the lock is given up.
#[derive(Clone, Copy)]
pub enum Trigger {
    Edge,
    Lost,
    Jump,
    Seam,
}

#[derive(Clone, Copy)]
pub enum Verdict {
    Refused(u8),
    Hold,
    Move(Samples),
    Reacquire(Trigger),
}

// The tracker's distances in samples. They follow from the rate.
#[derive(Clone, Copy, PartialEq, Eq)]
pub struct Bands {
    pub late: u64,
    pub early: u64,
    pub agree: u64,
    pub apart: u64,
    pub lead: u64,
}

#[derive(Clone, Copy)]
pub struct Tracker {
    pub rate: u32,
    pub bands: Bands,
    // A delay outside the bands that awaits its confirming cycle.
    pub pending: Option<Samples>,
    // The previous interior candidate.
    pub prev: Option<Samples>,
    // Runs of edge, contradicting and unconfident cycles.
    pub edges: u32,
    pub jumps: u32,
    pub unconfident: u32,
    // Whether the lock has only just survived a discontinuity.
    pub suspect: bool,
    // The largest run of contradicting cycles since the making.
    pub largest: u32,
}

#[derive(Clone, Copy)]
pub struct Changed {
    pub tracker: Tracker,
    pub answer: Change,
}

#[derive(Clone, Copy)]
pub struct Cycled {
    pub tracker: Tracker,
    pub verdict: Verdict,
}

// Tells whether there is no delay, or one that a call takes.
fn below_limit(delay: Option<Samples>) -> bool
    ensures { result ≡ below_limit delay }
{
    delay.is_none_or(|d| d.0 < answers::LIMIT)
}

// A run that reaches its limit asks to reacquire.
fn at_limit(run: u32, most: u32, trigger: Trigger) -> Verdict
    ensures { result ≡ at_limit run most trigger }
{
    if run >= most {
        Verdict::Reacquire(trigger)
    } else {
        Verdict::Hold
    }
}

impl Tracker {
    // A candidate is inside the bands if it is at most this many milliseconds earlier, or later, than the alignment.
    pub const MOVE_LATE_MS: u64 = 4;

    pub const MOVE_EARLY_MS: u64 = 48;

    // Two candidates confirm a move if they are at most this far apart.
    pub const MOVE_AGREE_MS: u64 = 24;

    // Two candidates are unrelated if they are farther apart than this.
    pub const JUMP_APART_MS: u64 = 100;

    // A move to an earlier delay gets this much extra lead.
    pub const MOVE_LATE_LEAD_MS: u64 = 8;

    // A trigger fires when its run reaches this many cycles.
    pub const EDGE_CYCLES: u32 = 3;

    pub const JUMP_CYCLES: u32 = 4;

    pub const UNCONFIDENT_CYCLES: u32 = 8;

    pub const SUSPECT_UNCONFIDENT_CYCLES: u32 = 4;

    // Turns milliseconds into samples, at least 1.
    fn per_ms(ms: u64, rate: u32) -> u64
        requires { ms ≤ 1000 }
        ensures { result ≡ per_ms ms rate }
    {
        (ms * (rate as u64) / 1000).max(1)
    }

    fn bands_of(rate: u32) -> Bands
        ensures { result ≡ bands_of rate }
    {
        Bands {
            late: Tracker::per_ms(Tracker::MOVE_LATE_MS, rate),
            early: Tracker::per_ms(Tracker::MOVE_EARLY_MS, rate),
            agree: Tracker::per_ms(Tracker::MOVE_AGREE_MS, rate),
            apart: Tracker::per_ms(Tracker::JUMP_APART_MS, rate),
            lead: Tracker::per_ms(Tracker::MOVE_LATE_LEAD_MS, rate),
        }
    }

    fn fresh(rate: u32) -> Tracker
        ensures { result ≡ fresh rate }
    {
        Tracker {
            rate,
            bands: Tracker::bands_of(rate),
            pending: None,
            prev: None,
            edges: 0,
            jumps: 0,
            unconfident: 0,
            suspect: false,
            largest: 0,
        }
    }

    // Makes a tracker for a new lock at `rate`. A refused making hands out the one for rate 8,000.
    pub fn new(rate: u32) -> Changed
        ensures { result ≡ made rate }
    {
        if answers::allowed_rate(rate) {
            return Changed {
                tracker: Tracker::fresh(rate),
                answer: Change::Done,
            };
        }
        Changed {
            tracker: Tracker::fresh(8000),
            answer: Change::Refused(answers::OUTSIDE_TABLE),
        }
    }

    // Gives the number with which every call refuses this tracker, or 0 for none.
    fn refusal(self) -> u8
        ensures { result ≡ state_refusal self }
    {
        if !answers::allowed_rate(self.rate) {
            return answers::OUTSIDE_TABLE;
        }
        if self.bands != Tracker::bands_of(self.rate) {
            return answers::BROKEN_STATE;
        }
        if !below_limit(self.pending) || !below_limit(self.prev) {
            return answers::BROKEN_STATE;
        }
        if self.jumps > self.largest {
            return answers::INCONSISTENT_RECORD;
        }
        0
    }

    // Gives the same tracker other evidence. Every tracker but a new one is made here, so that no contradicting run is missed.
    // The six parts stay parameters: this contract, `Leaves` of specs/Rules and the laws of tracker_history name each of them.
    pub fn evidence(
        self,
        pending: Option<Samples>,
        prev: Option<Samples>,
        edges: u32,
        jumps: u32,
        unconfident: u32,
        suspect: bool,
    ) -> Tracker
        ensures { result ≡ evidence self pending prev edges jumps unconfident suspect }
    {
        Tracker {
            pending,
            prev,
            edges,
            jumps,
            unconfident,
            suspect,
            largest: self.largest.max(jumps),
            ..self
        }
    }

    fn with_jumps(self, run: u32) -> Tracker
        ensures { result ≡ with_jumps self run }
    {
        let Tracker {
            pending,
            prev,
            edges,
            unconfident,
            suspect,
            ..
        } = self;
        self.evidence(pending, prev, edges, run, unconfident, suspect)
    }

    // Answers a call that changes the tracker to `next`; if it is refused, hands this tracker back.
    fn changed(self, refusal: u8, next: Tracker) -> Changed
        ensures { result ≡ changed self refusal next }
    {
        if refusal != 0 {
            return Changed {
                tracker: self,
                answer: Change::Refused(refusal),
            };
        }
        Changed {
            tracker: next,
            answer: Change::Done,
        }
    }

    // Takes note of a discontinuity: the lock survives, suspect, and the evidence from before the seam is discarded.
    pub fn on_discontinuity(self) -> Changed
        ensures { result ≡ seamed self }
    {
        let next = self.evidence(None, None, 0, 0, 0, true);
        self.changed(self.refusal(), next)
    }

    // Reports the current run of contradicting cycles.
    pub fn jump_cycles(self) -> Count
        ensures { result ≡ jump_cycles self }
    {
        Count::of(self.refusal(), self.jumps as u64)
    }

    // Reports the largest such run since the making.
    pub fn longest_run(self) -> Count
        ensures { result ≡ longest_run self }
    {
        Count::of(self.refusal(), self.largest as u64)
    }

    // Reports whether the lock is under suspicion after a discontinuity.
    pub fn suspect(self) -> Flag
        ensures { result ≡ suspected self }
    {
        Flag::of(self.refusal(), self.suspect)
    }

    // Tells whether the tracker has unfinished business.
    fn unfinished(self) -> bool
        ensures { result ≡ unfinished self }
    {
        self.pending.is_some()
            || self.edges != 0
            || self.jumps != 0
            || self.unconfident != 0
            || self.suspect
    }

    // Reports whether it has none.
    pub fn quiescent(self) -> Flag
        ensures { result ≡ quiescent self }
    {
        Flag::of(self.refusal(), !self.unfinished())
    }

    // Tells whether a candidate lies outside the dead bands around the alignment.
    fn outside_bands(self, alignment: u64, delay: u64) -> bool
        ensures { result ≡ outside_bands self alignment delay }
    {
        alignment.saturating_sub(delay) > self.bands.late
            || delay.saturating_sub(alignment) > self.bands.early
    }

    // Tells whether a candidate is unrelated to the one before it.
    fn jumped(self, delay: u64) -> bool
        ensures { result ≡ jumped self delay }
    {
        self.prev
            .is_some_and(|p| delay.abs_diff(p.0) > self.bands.apart)
    }

    // Tells whether a candidate confirms the pending move.
    fn confirms(self, delay: u64) -> bool
        ensures { result ≡ confirmed self delay }
    {
        self.pending
            .is_some_and(|p| delay.abs_diff(p.0) <= self.bands.agree)
    }

    // Tells where a confirmed move lands: a correction toward an earlier delay lands with a lead.
    fn landing(self, alignment: u64, delay: u64) -> u64
        ensures { result ≡ landing self alignment delay }
    {
        if delay < alignment {
            delay.saturating_sub(self.bands.lead)
        } else {
            delay
        }
    }

    // Counts an unconfident cycle, which clears nothing.
    fn on_unconfident(self) -> Cycled
        ensures { result ≡ unconfident_cycle self }
    {
        let run = self.unconfident.saturating_add(1);
        let Tracker {
            pending,
            prev,
            edges,
            jumps,
            suspect,
            ..
        } = self;
        let tracker = self.evidence(pending, prev, edges, jumps, run, suspect);
        let verdict = if suspect {
            at_limit(run, Tracker::SUSPECT_UNCONFIDENT_CYCLES, Trigger::Seam)
        } else {
            at_limit(run, Tracker::UNCONFIDENT_CYCLES, Trigger::Lost)
        };
        Cycled { tracker, verdict }
    }

    // Counts a candidate at an edge of the searched range. It adds only to its own run, and is not compared with others.
    fn on_edge(self) -> Cycled
        ensures { result ≡ edge_cycle self }
    {
        let run = self.edges.saturating_add(1);
        Cycled {
            tracker: self.evidence(None, None, run, self.jumps, 0, self.suspect),
            verdict: at_limit(run, Tracker::EDGE_CYCLES, Trigger::Edge),
        }
    }

    // Takes one step of the contradiction run, or ends it.
    fn escalated(self, contradicted: bool, had_prev: bool) -> Cycled
        ensures { result ≡ escalated self contradicted had_prev }
    {
        if contradicted {
            let run = self.jumps.saturating_add(1);
            let tracker = self.with_jumps(run);
            return Cycled {
                tracker,
                verdict: at_limit(run, Tracker::JUMP_CYCLES, Trigger::Jump),
            };
        }
        let run = if had_prev { 0 } else { self.jumps };
        Cycled {
            tracker: self.with_jumps(run),
            verdict: Verdict::Hold,
        }
    }

    // Tells whether a candidate jumped, or replaces a pending one instead of confirming it.
    fn contradicts(self, delay: u64) -> bool
        ensures { result ≡ contradicts self delay }
    {
        self.jumped(delay) || self.pending.is_some()
    }

    // Judges an interior candidate outside the bands: it confirms the pending move, or awaits its own confirmation.
    fn on_outside(self, alignment: u64, delay: u64) -> Cycled
        ensures { result ≡ outside_cycle self alignment delay }
    {
        let here = Some(Samples(delay));
        if self.confirms(delay) {
            return Cycled {
                tracker: self.evidence(None, here, 0, 0, 0, false),
                verdict: Verdict::Move(Samples(self.landing(alignment, delay))),
            };
        }
        let waiting = self.evidence(here, here, 0, self.jumps, 0, self.suspect);
        waiting.escalated(self.contradicts(delay), self.prev.is_some())
    }

    // Judges an interior candidate. Inside the bands it confirms the alignment again.
    fn on_interior(self, alignment: u64, delay: u64) -> Cycled
        ensures { result ≡ interior_cycle self alignment delay }
    {
        let here = Some(Samples(delay));
        if self.outside_bands(alignment, delay) {
            return self.on_outside(alignment, delay);
        }
        let settled = self.evidence(None, here, 0, self.jumps, 0, false);
        settled.escalated(self.jumped(delay), self.prev.is_some())
    }

    fn judge(self, alignment: Samples, outcome: Outcome) -> Cycled
        ensures { result ≡ judged self alignment outcome }
    {
        match outcome {
            Outcome::Unconfident => self.on_unconfident(),
            Outcome::Candidate { delay, interior } => if interior {
                self.on_interior(alignment.0, delay.0)
            } else {
                self.on_edge()
            },
        }
    }

    // Gives the number with which a cycle is refused, or 0 for none.
    fn cycle_refusal(self, alignment: Samples, outcome: Outcome) -> u8
        ensures { result ≡ cycle_refusal self alignment outcome }
    {
        let earlier = self.refusal();
        if earlier != 0 {
            return earlier;
        }
        if alignment.0 >= answers::LIMIT {
            return answers::TOO_LARGE;
        }
        match outcome {
            Outcome::Unconfident => 0,
            Outcome::Candidate { delay, interior: _ } => if delay.0 < answers::LIMIT {
                0
            } else {
                answers::TOO_LARGE
            },
        }
    }

    // Judges one concluded cycle against the current alignment.
    pub fn on_cycle(self, alignment: Samples, outcome: Outcome) -> Cycled
        ensures { result ≡ cycled self alignment outcome }
    {
        let refusal = self.cycle_refusal(alignment, outcome);
        if refusal != 0 {
            return Cycled {
                tracker: self,
                verdict: Verdict::Refused(refusal),
            };
        }
        self.judge(alignment, outcome)
    }
}
