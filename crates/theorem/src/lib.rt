// The rewriting of queries and the theorem that it is right: no code.

#![tactic(auto)]
