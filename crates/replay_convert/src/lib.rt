// No code: what converting a recording has to do with its log.
#![tactic(auto)]
