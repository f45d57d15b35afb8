// A pair's state as the 38 words that a host lends: loaded and stored. specs/Layout.antt says where each field stands.
// What a call answers is told by the crates that a scan has as well: scan_words, and scan_handover_face for a run.
#![tactic(auto)]

pub mod loading; // from words
pub mod storing; // into words

// How many words a pair's state has.
pub const WORDS: usize = 38;
