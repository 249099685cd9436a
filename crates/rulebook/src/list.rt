// The list of rules: "four-byte list records (label, zero, entry number)". They lie as the records of nodes do, and are read there.
ghost use Rattle.std.specs.Prelude.{◌↔◌, ◌<◌, T, length};
ghost use Rattle.reply.specs.Reply.{said};
ghost use Rattle.rules.specs.Rules.{listed, AboveLast, RecordFits};
ghost use Rattle.rulebook.specs.Rulebook.{ListChecked};

use reply::{Reason, Reply, refuse};
use roll::{count, label_at, parent_at, second_fits};
use tree::is_label;

// "labels strictly ascending": whether the label of record k is above the one before.
fn ascends(list: &[u8], k: usize) -> bool
    ensures { T result ↔ AboveLast (listed list.now) k }
{
    if k == 0 {
        return true;
    }
    label_at(list, k - 1) < label_at(list, k)
}

// Whether record k has a label, above the one before, and a zero, and names an entry.
fn record_fits(rules: &[u8], list: &[u8], k: usize) -> bool
    requires { k < length (listed list.now) }
    ensures { T result ↔ RecordFits rules.now list.now k }
{
    let label = is_label(label_at(list, k));
    let second = second_fits(list, k);
    let named = parent_at(list, k) < tables::count(rules);
    label & second & named & ascends(list, k)
}

// The records alone: the lowest that does not fit.
pub(crate) fn check_list(rules: &[u8], list: &[u8]) -> Reply
    ensures { ListChecked rules.now list.now (said result) }
{
    let n = count(list);
    for k in 0..n {
        if !record_fits(rules, list, k) {
            return refuse(Reason::RulesMalformed, k);
        }
    }
    Ok(n)
}
