// Demand 3 and the agreement with the full scan (request j), of the code: from the contracts of the functions alone, as crate scan_forgets does for the scan. There is no code here.
#![tactic(auto)]
