// The wall panel's profile and the full scan, fed the same calls (request j). There is no code here: specs/ says where their answers are the same, proofs/ proves it.
#![tactic(auto)]
