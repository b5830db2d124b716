#![tactic(auto)]
// No code: the drawings worked through, by their texts.
