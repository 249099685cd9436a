// Trees in document order: definitions and laws, and the one test of a label.

#![tactic(auto)]

ghost use Rattle.std.specs.Prelude.{◌↔◌, T};
ghost use Rattle.tree.specs.Tree.{Label};

// "label (1 to 64)"
pub fn is_label(label: usize) -> bool
    ensures { T result ↔ Label label }
{
    (1..=64).contains(&label)
}
