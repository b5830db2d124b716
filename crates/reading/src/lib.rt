#![tactic(auto)]
// No code: what reading answers is a diagram or a refusal, and the definitions of specs/ say which; the functions are in `reader`.
