// The worked cases of the definitions: no code.

#![tactic(auto)]
