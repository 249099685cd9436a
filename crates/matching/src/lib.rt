// A word is matched against a rule entry, on sets of places in the word: an expression takes a set to where its words end.

#![tactic(auto)]

mod label;
mod stars;

ghost use Rattle.std.specs.Prelude.{◌↔◌, ◌≡◌, ℕ, ◌<◌, ◌∷◌, min, T, length};
ghost use Rattle.query.specs.Table.{entries};
ghost use Rattle.sets.specs.Sets.{Image};
ghost use Rattle.rules.specs.Language.{InLanguage, either, star};
ghost use Rattle.rules.specs.Table.{EntryRight, expression_at};
ghost use Rattle.matching.specs.Spans.{Spans, Used};
ghost use Rattle.matching.specs.Settled.{stars, Asked, Counted, Passed, Cleared};

use label::go_over;
use rules::Rule;
use sets::{add, add_front, empty, has, is_front_empty, take_front};
use stars::right_at;
pub use stars::{STARS, count_stars};

// A word, and the rule entries that it is matched against, all of them in order, with the stars of each. So many words of a set can hold a
// place in the word.
#[derive(Drop)]
struct Matching<'a> {
    rules: &'a [u8],
    counts: &'a [usize],
    word: &'a [u8],
    used: usize,
    ghost right: { (i : ℕ) → i < length (entries rules.now) → ∥ EntryRight (entries rules.now) i ∥₁ },
    ghost counted: { Counted (entries rules.now) counts.now },
    ghost holds: { Used word.now used },
}

// How many words of a set can hold a place in the word: nearly always one. They are all where one is too few, so that the time goes with
// the labels and not with their square.
fn words_of(word: &[u8]) -> usize
    requires { length word.now < 4096 }
    ensures { Used word.now result }
{
    if word.len() < 64 { 1 } else { 64 }
}

// Takes all members out of the sets. (`fill` asks that a copy of a set equals it, which is not known of arrays.)
fn clear(kept: &mut [[u64; 64]])
    ensures { Cleared kept.new }
{
    for set in kept.iter_mut() {
        *set = empty();
    }
}

impl<'a> Matching<'a> {
    // How many of so many sets go to the stars of entry e.
    fn share(&self, e: usize, sets: usize) -> usize
        requires { e < length (entries self.now.rules.now) }
        ensures { result ≡ min (stars (expression_at (entries self.now.rules.now) e)) sets }
    {
        self.counts[e].min(sets)
    }

    // Where words of entry e end that begin at a place of the set, written over the set. An entry in a star is asked more than once: where
    // it led from the places that it was asked of before need not be found again, and `kept` has what its stars have reached so far.
    #[cycle(asking)]
    fn pass(&self, e: usize, kept: &mut [[u64; 64]], set: &mut [u64; 64])
        requires { Asked self.now.rules.now e self.now.word.now set.old }
        ensures { Passed (expression_at (entries self.now.rules.now) e) self.now.word.now kept.old set.old kept.new set.new }
    {
        if is_front_empty(set, self.used) {
            return;
        }
        match right_at(self.rules, e) {
            Rule::Empty => {}
            Rule::One(label) => go_over(self.word, label, set),
            Rule::Then(left, right) => {
                let n = self.share(left, kept.len());
                self.pass(left, &mut kept[..n], set);
                self.pass(right, &mut kept[n..], set);
            }
            Rule::Either(left, right) => self.pass_either(left, right, kept, set),
            Rule::Star(of) => match kept.split_first_mut() {
                Some((reached, others)) => self.go_on(of, reached, others, set),
                None => self.go_on_alone(of, set),
            },
        }
    }

    // The same for either of two entries. One that is named twice is asked once: so entries upon one another are not asked twice as often
    // at each height.
    #[cycle(asking)]
    fn pass_either(&self, left: usize, right: usize, kept: &mut [[u64; 64]], set: &mut [u64; 64])
        requires asked { Asked self.now.rules.now left self.now.word.now set.old }
        requires right_in_bounds { right < length (entries self.now.rules.now) }
        ensures { let es = entries self.now.rules.now in
            Passed (either (expression_at es left) (expression_at es right)) self.now.word.now kept.old set.old kept.new set.new }
    {
        let n = self.share(left, kept.len());
        let mut other = *set;
        self.pass(left, &mut kept[..n], set);
        if left != right {
            self.pass(right, &mut kept[n..], &mut other);
            add_front(set, &other, self.used);
        }
    }

    // The same for zero or more words of entry e, one behind the other: each round goes on from what is new in the last one, until nothing
    // is. What was reached is kept, and what was reached before is not gone on from again.
    #[cycle(asking)]
    fn go_on(&self, e: usize, reached: &mut [u64; 64], kept: &mut [[u64; 64]], set: &mut [u64; 64])
        requires { Asked self.now.rules.now e self.now.word.now set.old }
        ensures { Passed (star (expression_at (entries self.now.rules.now) e)) self.now.word.now
            (reached.old ∷ kept.old) set.old (reached.new ∷ kept.new) set.new }
    {
        take_front(set, reached, self.used);
        add_front(reached, set, self.used);
        let mut fresh = *set;
        while !is_front_empty(&fresh, self.used) {
            self.pass(e, kept, &mut fresh);
            take_front(&mut fresh, reached, self.used);
            add_front(reached, &fresh, self.used);
            add_front(set, &fresh, self.used);
        }
    }

    // The same where no set is left to keep for the star.
    #[cycle(asking)]
    fn go_on_alone(&self, e: usize, set: &mut [u64; 64])
        requires { Asked self.now.rules.now e self.now.word.now set.old }
        ensures { Image (Spans (star (expression_at (entries self.now.rules.now) e)) self.now.word.now) set.old set.new }
    {
        let mut reached = empty();
        self.go_on(e, &mut reached, &mut [], set);
    }

    // The same for an entry that stands in no star. It is asked once, so that nothing has to be kept of it, and the sets serve one of its
    // stars after the other, each with those inside it. They are not divided between two operands, so that it is no case of `pass`.
    #[cycle(asking_once)]
    fn pass_once(&self, e: usize, kept: &mut [[u64; 64]], set: &mut [u64; 64])
        requires { Asked self.now.rules.now e self.now.word.now set.old }
        ensures { Image (Spans (expression_at (entries self.now.rules.now) e) self.now.word.now) set.old set.new }
    {
        if is_front_empty(set, self.used) {
            return;
        }
        match right_at(self.rules, e) {
            Rule::Then(left, right) => {
                self.pass_once(left, kept, set);
                self.pass_once(right, kept, set);
            }
            Rule::Either(left, right) => self.either_once(left, right, kept, set),
            _ => {
                let n = self.share(e, kept.len());
                clear(&mut kept[..n]);
                self.pass(e, &mut kept[..n], set);
            }
        }
    }

    // The same for either of two such entries.
    #[cycle(asking_once)]
    fn either_once(&self, left: usize, right: usize, kept: &mut [[u64; 64]], set: &mut [u64; 64])
        requires asked { Asked self.now.rules.now left self.now.word.now set.old }
        requires right_in_bounds { right < length (entries self.now.rules.now) }
        ensures { let es = entries self.now.rules.now in
            Image (Spans (either (expression_at es left) (expression_at es right)) self.now.word.now) set.old set.new }
    {
        let mut other = *set;
        self.pass_once(left, kept, set);
        if left != right {
            self.pass_once(right, kept, &mut other);
            add_front(set, &other, self.used);
        }
    }
}

// Whether the word is in the language of what entry e stands for. What its stars reach is kept in `kept`, whatever stood there before; with
// fewer sets than stars it takes longer.
pub fn matches(
    rules: &[u8],
    counts: &[usize],
    e: usize,
    word: &[u8],
    kept: &mut [[u64; 64]],
) -> bool
    requires by_index { (i : ℕ) → i < length (entries rules.now) → EntryRight (entries rules.now) i }
    requires counted { Counted (entries rules.now) counts.now }
    requires e_in_bounds { e < length (entries rules.now) }
    requires word_len_bound { length word.now < 4096 }
    ensures { T result ↔ InLanguage (expression_at (entries rules.now) e) word.now }
{
    let matching = Matching {
        rules,
        counts,
        word,
        used: words_of(word),
    };
    let mut set = empty();
    add(&mut set, 0);
    matching.pass_once(e, kept, &mut set);
    has(&set, word.len())
}
