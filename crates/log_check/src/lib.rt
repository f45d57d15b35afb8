// A log held against a recording: what the verdict is (specs/Checked.antt), what a host does that checks a log (specs/Checking.antt), and the theorems that its verdict is that
// one (proofs). The calls that such a host makes are `replay_next::next` and `log_hold::hold_next`.
#![tactic(auto)]
