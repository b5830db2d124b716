#![tactic(auto)]
// No code: what it is for a table to agree with a process.
