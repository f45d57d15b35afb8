// A recording in three open files, converted into three others: it is judged first, and nothing is written unless it is whole. Proved: it is safe and ends. What the samples of an
// event become is proved in `recording_store`, and what a whole recording becomes in `recording_convert`.
#![tactic(auto)]

pub mod judging;
pub mod writing;
