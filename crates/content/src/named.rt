// Which rule is whose: the list, turned into a table by labels.
ghost use Rattle.std.specs.Prelude.{ℕ, ◌≤◌, ◌<◌, length};
ghost use Rattle.tree.specs.Tree.{label_at};
ghost use Rattle.rules.specs.Rules.{listed};
ghost use Rattle.content.specs.Content.{ByLabel};

use roll::{count, label_at, parent_at};

// The number of the entry that the list names for each label, where it names one.
pub(crate) fn rules_by_label(list: &[u8]) -> [Option<usize>; 65]
    requires { let rs = listed list.now in (k : ℕ) → k < length rs → label_at rs k ≤ 64 }
    ensures { ByLabel list.now result }
{
    let mut named = [None; 65];
    for k in 0..count(list) {
        named[label_at(list, k)] = Some(parent_at(list, k));
    }
    named
}
