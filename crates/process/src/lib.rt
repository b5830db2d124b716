#![tactic(auto)]
// No code: the meaning is definitions in specs/ and theorems in proofs/.
