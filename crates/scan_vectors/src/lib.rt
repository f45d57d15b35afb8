// The stored calls of the scan: what a record holds, the states that it makes up, and whether a scan and its buffers are as it says. tests/scan/README.md has the format.
#![tactic(auto)]

pub mod records; // a record, and its call
pub mod buffers; // the buffers that are lent
pub mod made_up; // states that a record makes up
pub mod compare; // the state, the reports and the buffers after a call
pub mod whole; // buffers that stand whole in a file
