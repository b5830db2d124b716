#![tactic(auto)]
// No code: lists of calls and what holds of them, for any calls, replies and states.
