// Input and output, and nothing else: what every program stands on, and the one part of it that is trusted by trial. A program is a loop over a call that does no input or
// output; this crate hands that call its bytes and takes its text away.
//
//   window   the bytes of an input that are at hand: fresh, refill (one read behind them), past (the first n are used), allow (how many more may be read)
//   named    files by name: argument, open, make, seekable, fail ("TOOL: FILE: reason"), say ("TOOL: text")
//   told     what a program gives back: drain (all of a text), progress (on a terminal), status
//   reason   why a call of the system failed
//   rooms    room for a name and for a window, and a read that fills what it is lent
//
// Proved: every call is safe and ends, and a refill keeps the bytes at hand, in their order, in front of those that it reads, and reads none past what is allowed. What the
// system reads and writes no contract can say: tests/replay/try tries it.
#![tactic(auto)]

pub mod named;
pub mod reason;
pub mod rooms;
pub mod told;
pub mod window;
