// Content rules, request Q-3: definitions and laws, and what a rule entry is read as.

#![tactic(auto)]

// "empty, one label, one after another, either, zero or more": a label, or the numbers of the entries that are its operands.
#[derive(Clone, Copy)]
pub enum Rule {
    Empty,
    One(usize),
    Then(usize, usize),
    Either(usize, usize),
    Star(usize),
}
