// The scan's calls, one after the other. There is no code here: specs/Happened says what happened in a program by the contracts of the functions that it called,
// specs/Statement what demand 3 says of it, and proofs/Forgets proves that.
#![tactic(auto)]
