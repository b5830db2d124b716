#![tactic(auto)]
// No code: the book that the list of calls is held against, and the record it leads to.
