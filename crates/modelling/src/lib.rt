#![tactic(auto)]
// No code: the Event-B text of an event of a diagram, and of its whole machine; what the calls that write them answer.
