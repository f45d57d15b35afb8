// A scan's state as the 25 words that a host lends: loaded, stored, and its calls' answers as numbers and values. specs/Layout.antt says where each field stands.
#![tactic(auto)]

pub mod loading; // from words
pub mod storing; // into words
pub mod answering; // what a call answers

// How many words a scan's state has.
pub const WORDS: usize = 25;
