// What the rewritten query is written as, and what it stands for: definitions and laws alone.

#![tactic(auto)]
