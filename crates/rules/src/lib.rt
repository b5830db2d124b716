#![tactic(auto)]
// No code but the answer that the definitions of specs/ give: the functions are in `names` and `sweeps`.

// How many node copies and events a drawing has.
#[derive(Clone, Copy, Debug, PartialEq, Eq)]
pub struct Counts {
    pub copies: usize,
    pub events: usize,
}
