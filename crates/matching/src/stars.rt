// How many stars an entry has, counted as often as they are used, and at most 32: so many sets are kept for them.
ghost use Rattle.std.specs.Prelude.{◌≡◌, ℕ, ◌<◌, ◌≤◌, length};
ghost use Rattle.query.specs.Table.{entries};
ghost use Rattle.rules.specs.Table.{EntryRight, expression_at};
ghost use Rattle.rules.specs.Read.{Is};
ghost use Rattle.matching.specs.Settled.{stars, Counted, CountedTo};

use reply::RULE_ENTRIES;
use rulebook::rule_at;
use rules::Rule;
use tables::count;

// As many sets are kept at most.
pub const STARS: usize = 32;

// What entry i is: all are in order.
pub(crate) fn right_at(rules: &[u8], i: usize) -> Rule
    requires { ∥ EntryRight (entries rules.now) i ∥₁ }
    ensures { Is (entries rules.now) i result }
{
    rule_at(rules, i).unwrap()
}

// The stars of entry i, where those of the entries before are known.
fn stars_of(counts: &[usize], rules: &[u8], i: usize) -> usize
    requires i_in_bounds { (i < length (entries rules.now)) × (i < length counts.now) }
    requires entry_right { EntryRight (entries rules.now) i }
    requires counted_to { CountedTo (entries rules.now) counts.now i }
    ensures { result ≡ stars (expression_at (entries rules.now) i) }
{
    match right_at(rules, i) {
        Rule::Empty | Rule::One(_) => 0,
        Rule::Then(left, right) | Rule::Either(left, right) => {
            STARS.min(counts[left] + counts[right])
        }
        Rule::Star(of) => STARS.min(counts[of] + 1),
    }
}

// The stars of each entry.
pub fn count_stars(rules: &[u8]) -> [usize; RULE_ENTRIES]
    requires rules_len_bound { length (entries rules.now) ≤ 256 }
    requires by_index { (i : ℕ) → i < length (entries rules.now) → EntryRight (entries rules.now) i }
    ensures { Counted (entries rules.now) result }
{
    let mut counts = [0; RULE_ENTRIES];
    for i in 0..count(rules) {
        counts[i] = stars_of(&counts, rules, i);
    }
    counts
}
