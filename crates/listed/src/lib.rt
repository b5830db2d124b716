#![tactic(auto)]
// No code: the walk of `lines` over the nodes of a diagram that is read writes the diagram's listing.
