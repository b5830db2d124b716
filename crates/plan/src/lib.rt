#![tactic(auto)]
// No function: the plan of a process is definitions in specs/ and theorems in proofs/. Only the two values that the code of `guards` holds stand here.

// The rows that speak of a part: that it is begun; that it is not; that it is complete; that it is complete or not begun, if a row says so yet. And the part's
// first event.
#[derive(Clone, Copy, Debug, PartialEq, Eq, Default)]
pub struct PartRows {
    pub begun: u16,
    pub idle: u16,
    pub done: u16,
    pub settled: Option<u16>,
    pub first: u16,
}

// What the second pass needs of a number. `later`: the row that a leaf, a reset or the later part of a joint needs besides the row by which the whole may go on.
// `earlier`: the row that the earlier part of a joint needs; of a reset, the first event that it clears.
#[derive(Clone, Copy, Debug, PartialEq, Eq, Default)]
pub struct Needs {
    pub later: u16,
    pub earlier: u16,
}
