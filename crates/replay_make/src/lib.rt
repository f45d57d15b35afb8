// No code: what is made of two sounds has no line in its log that begins with `bad`.
#![tactic(auto)]
