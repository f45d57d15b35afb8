// Loads a ring's state from the word that a host lends, stores it there, and turns its calls' answers into numbers and values.
#![tactic(auto)]

ghost use Rattle.std.specs.Prelude.{◌≡◌, length};
ghost use Rattle.ring_words.specs.Layout.{ring_words, loaded, settled};

use ring::Ring;

pub mod answering; // what a call answers

pub const WORDS: usize = 1;

pub fn load(state: &[u64]) -> Ring
    requires { length state.now ≡ ring_words }
    ensures { result ≡ loaded state.now }
{
    Ring { accepted: state[0] }
}

// Stores what a call leaves in the words, nothing new if it was refused, and returns the call's number.
pub fn settle(state: &mut [u64], number: u32, ring: Ring) -> u32
    requires { length state.old ≡ ring_words }
    ensures number { result ≡ number }
    ensures words { state.new ≡ settled state.old number ring }
{
    if number < 16 {
        return number;
    }
    state[0] = ring.accepted;
    number
}
