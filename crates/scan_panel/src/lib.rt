// The wall panel's profile (request j): rates 8,000 and 16,000, a ceiling of 8 to 320 ms, an envelope slack of 512 bins. There is no code here: specs/ says what its calls do and what
// demand 3 says of them, proofs/ that they are the scan's own at that slack. The calls are in crate scan_panel_calls.
#![tactic(auto)]
