// The check of a roll's content: every node's child labels, in order, are in the language of the rule that its label has.

#![tactic(auto)]

mod named;

ghost use Rattle.std.specs.Prelude.{◌↔◌, ℕ, ◌<◌, T, length};
ghost use Rattle.reply.specs.Reply.{said};
ghost use Rattle.tree.specs.Tree.{Next, label_at};
ghost use Rattle.roll.specs.Roll.{nodes, Roll};
ghost use Rattle.query.specs.Table.{entries};
ghost use Rattle.links.specs.Links.{Linked, next};
ghost use Rattle.rules.specs.Table.{EntryRight};
ghost use Rattle.rules.specs.Rules.{Rules, word as word_of};
ghost use Rattle.rules.specs.Promise.{ContentChecked};
ghost use Rattle.matching.specs.Settled.{Counted};
ghost use Rattle.content.specs.Content.{NamesEntries, Obeys, rule_of, NodesChecked};

use links::{NONE, link};
use matching::{STARS, count_stars, matches};
use named::rules_by_label;
use reply::{Reason, Reply, refuse};
use roll::{check_roll, label_at};
use rulebook::check_rules;
use words::gather;

// A roll with its links, and the rule entries that its nodes are to follow, with the entry of each label's rule and the
// stars of each entry.
#[derive(Drop)]
struct Ruled<'a> {
    roll: &'a [u8],
    links: &'a [u16; 8192],
    rules: &'a [u8],
    named: &'a [Option<usize>; 65],
    counts: &'a [usize],
}

impl Ruled<'_> {
    // Whether the children of node i are allowed. Their labels are gathered in `word`, and what stars reach is kept in `kept`.
    fn allows(&self, i: usize, word: &mut [u8; 4096], kept: &mut [[u64; 64]]) -> bool
        requires roll { Roll self.now.roll.now × Linked (Next (nodes self.now.roll.now)) (next self.now.links.now) }
        requires by_index { (k : ℕ) → k < length (entries self.now.rules.now) → EntryRight (entries self.now.rules.now) k }
        requires named { NamesEntries (entries self.now.rules.now) self.now.named.now }
        requires counted { Counted (entries self.now.rules.now) self.now.counts.now }
        requires i_in_bounds { i < length (nodes self.now.roll.now) }
        ensures { let t = nodes self.now.roll.now in
            T result ↔ Obeys (entries self.now.rules.now) (rule_of self.now.named.now (label_at t i)) (word_of t i) }
    {
        let Some(e) = self.named[label_at(self.roll, i)] else {
            return true;
        };
        let n = gather(self.roll, self.links, i, word);
        matches(self.rules, self.counts, e, &word[..n], kept)
    }
}

// Checks the nodes one by one.
fn check_nodes(roll: &[u8], rules: &[u8], list: &[u8]) -> Reply
    requires { Roll roll.now × Rules rules.now list.now }
    ensures { NodesChecked roll.now rules.now list.now (said result) }
{
    let mut links = [NONE; 8192];
    link(roll, &mut links);
    let ruled = Ruled {
        roll,
        links: &links,
        rules,
        named: &rules_by_label(list),
        counts: &count_stars(rules),
    };
    let mut word = [0u8; 4096];
    let mut kept = [[0u64; 64]; STARS];
    let n = roll::count(roll);
    for i in 0..n {
        if !ruled.allows(i, &mut word, &mut kept) {
            return refuse(Reason::ChildrenForbidden, i);
        }
    }
    Ok(n)
}

// Check a roll's content: the roll first, then the rules, then the children of every node. The number of nodes, or the first fault.
pub fn check_content(roll: &[u8], rules: &[u8], list: &[u8]) -> Reply
    ensures { ContentChecked roll.now rules.now list.now (said result) }
{
    check_roll(roll)?;
    check_rules(rules, list)?;
    check_nodes(roll, rules, list)
}
