// Two logs walked from the bytes at hand. Each call does no input or output, holds one line of each log at most, and says how many bytes it has used or of which log it wants
// more; so memory does not grow with the logs. A host judges each log to its end, walks both in their order, and then both once for each sort of lines.
#![tactic(auto)]

pub mod taking; // the next line of one log
pub mod judging; // one log: is every line one of a log
pub mod beside; // both in their order: are they the same
pub mod passing; // both by one sort: the first line that differs, and how many do
