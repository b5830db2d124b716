#![tactic(auto)]
// No code: the Event-B text of an event, and the formulas that are chosen for its guards.
