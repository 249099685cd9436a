// Rule entries: which are in order, how high they are, and the check of all of them.
ghost use Rattle.std.specs.Prelude.{◌≡◌, ◌+◌, ◌<◌, ◌≤◌, MatchOption, length};
ghost use Rattle.reply.specs.Reply.{said};
ghost use Rattle.query.specs.Table.{Entries, entries};
ghost use Rattle.rules.specs.Table.{EntryRight, height};
ghost use Rattle.rules.specs.Read.{FieldsRight, Is, meaning};
ghost use Rattle.rulebook.specs.Rulebook.{HeightsKnown, EntriesChecked};

use reply::{RULE_ENTRIES, RULE_HEIGHT, Reason, Reply, refuse};
use rules::Rule;
use tables::{count, entry_at};
use tree::is_label;

// What entry i is, where it is in order: its kind, "operands are numbers of earlier entries", and "unused fields are zero".
pub fn rule_at(rules: &[u8], i: usize) -> Option<Rule>
    ensures { let es = entries rules.now in MatchOption result (¬ EntryRight es i) (λ rule. Is es i rule) }
{
    let entry = entry_at(rules, i);
    match (entry.kind, entry.label, entry.left, entry.right) {
        (32, 0, 0, 0) => Some(Rule::Empty),
        (33, label, 0, 0) if is_label(label) => Some(Rule::One(label)),
        (34, 0, left, right) if left < i && right < i => Some(Rule::Then(left, right)),
        (35, 0, left, right) if left < i && right < i => Some(Rule::Either(left, right)),
        (36, 0, of, 0) if of < i => Some(Rule::Star(of)),
        _ => None,
    }
}

// The greatest height of the operands of entry i, 0 where it has none: one less than its own.
fn height_below(heights: &[u16; RULE_ENTRIES], rule: Rule, i: usize) -> u16
    requires i_in_bounds { i < 256 }
    requires right { FieldsRight i rule }
    ensures { (es : Entries) → HeightsKnown es heights.now i → result + 1 ≡ height (meaning es rule) }
{
    match rule {
        Rule::Empty | Rule::One(_) => 0,
        Rule::Then(left, right) | Rule::Either(left, right) => heights[left].max(heights[right]),
        Rule::Star(of) => heights[of],
    }
}

// The entries alone: the lowest that is not in order or too high. The heights of the entries before are kept. The walk is as that of
// `tables`, but for the test, the heights and the reasons: a function for both would be handed all of these.
pub(crate) fn check_entries(rules: &[u8]) -> Reply
    requires { length (entries rules.now) ≤ 256 }
    ensures { EntriesChecked rules.now (said result) }
{
    let n = count(rules);
    let mut heights = [0u16; RULE_ENTRIES];
    for i in 0..n {
        let Some(rule) = rule_at(rules, i) else {
            return refuse(Reason::RulesMalformed, i);
        };
        let below = height_below(&heights, rule, i);
        if RULE_HEIGHT <= below {
            return refuse(Reason::RulesMalformed, i);
        }
        heights[i] = below + 1;
    }
    Ok(n)
}
