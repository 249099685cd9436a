// Rule entries and their list are checked.

#![tactic(auto)]

mod entries;
mod list;

ghost use Rattle.reply.specs.Reply.{said};
ghost use Rattle.rulebook.specs.Rulebook.{RulesChecked};

pub use entries::rule_at;
use reply::{LISTED, RULE_ENTRIES, Reason, Reply, refuse};
use tables::whole;

// "place 0 for a bad length of either, then the lowest bad entry, then the lowest bad list record"; else the number of list records.
pub fn check_rules(rules: &[u8], list: &[u8]) -> Reply
    ensures { RulesChecked rules.now list.now (said result) }
{
    let sized = whole::<6>(rules, RULE_ENTRIES) & whole::<4>(list, LISTED);
    if !sized {
        return refuse(Reason::RulesMalformed, 0);
    }
    entries::check_entries(rules)?;
    list::check_list(rules, list)
}
