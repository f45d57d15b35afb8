// The P rows of SPECIFICATION 15. There is no code here: specs/Table.antt is the table, under one claim.
#![tactic(auto)]
