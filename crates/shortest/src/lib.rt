// The text of a path with the fewest brackets and no two stars in a row, that there is just one, and that reading it gives the path back:
// no code.

#![tactic(auto)]
