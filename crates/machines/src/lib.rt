#![tactic(auto)]
// Machines of drawings, as text.
pub mod eventb;
