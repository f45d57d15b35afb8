// The pair's calls, one after the other (request n). There is no code here: specs/Happened says what happened in a program by the contracts of the functions that it called,
// specs/Statement what each channel may rely on, and proofs/Forgets proves that.
#![tactic(auto)]
