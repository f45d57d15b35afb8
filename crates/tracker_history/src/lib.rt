// Tells from the cycle history alone when the tracker gives up. There is no code here: specs/ has the words, sentences and statements, and proofs/ ties them to the
// contracts of the tracker's functions.
#![tactic(auto)]
