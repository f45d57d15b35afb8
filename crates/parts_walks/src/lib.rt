// Two logs in open files, walked to their ends. Proved: each call of `log_passes` is handed the bytes at hand and nothing else, what it used is passed, and what a loop comes to
// is what a host comes to that holds the bytes which the reads brought, in their order.
#![tactic(auto)]

// The three modules each have a loop `all`: one over a trait would be no plainer, for each promises walks of its own (JudgeWalked, OrderWalked, CountWalked) and lends other rooms.

pub mod inputs; // the two logs
pub mod judge; // is each a log
pub mod order; // are they the same
pub mod sorts; // what differs in a sort
