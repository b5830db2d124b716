#![tactic(auto)]
// No code: properties 1, 2 and 3, over the contracts of the calls.
