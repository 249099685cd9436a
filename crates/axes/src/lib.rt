// The axes of the view as paths on the tree: laws, and no code.

#![tactic(auto)]
