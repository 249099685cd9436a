// Two sets made into one. What becomes of two words is a closure, which the compiler puts into the loop and does for several words at once.
ghost use Rattle.std.specs.Prelude.{◌⊎◌, ◌*◌};
ghost use Rattle.sets.specs.Sets.{In, Holds, Inside};
ghost use Rattle.sets.specs.Merge.{Merged, FrontMerged};

// Writes over each word of a set what becomes of it and the word of another.
fn merge_into<F: Fn(u64, u64) -> u64>(set: &mut [u64; 64], other: &[u64; 64], how: F)
    requires { F.IsAlwaysCallable how }
    ensures { Merged (F.post how) set.old other.now set.new }
{
    for (i, word) in set.iter_mut().enumerate() {
        *word = how(*word, other[i]);
    }
}

// The same for the first so many words, which are all that matter to the caller: where that is one word, no other is looked at. A loop of
// so many turns would take longer where it is all of them.
fn merge_front<F: Fn(u64, u64) -> u64>(set: &mut [u64; 64], other: &[u64; 64], words: usize, how: F)
    requires { F.IsAlwaysCallable how }
    ensures { FrontMerged (F.post how) words set.old other.now set.new }
{
    if words == 1 {
        set[0] = how(set[0], other[0]);
    } else {
        merge_into(set, other, how);
    }
}

// Puts what is in another set into the set; all of that stands in the first so many words.
pub fn add_front(set: &mut [u64; 64], other: &[u64; 64], words: usize)
    requires { Inside (64 * words) other.now }
    ensures { Holds (λ k. In set.old k ⊎ In other.now k) set.new }
{
    merge_front(set, other, words, |a, b| a | b);
}

// Takes what is in another set out of the set, which stands in the first so many words.
pub fn take_front(set: &mut [u64; 64], other: &[u64; 64], words: usize)
    requires { Inside (64 * words) set.old }
    ensures { Holds (λ k. In set.old k × ¬ In other.now k) set.new }
{
    merge_front(set, other, words, |a, b| a & !b);
}

// What is in either set.
pub fn union(a: [u64; 64], b: [u64; 64]) -> [u64; 64]
    ensures { Holds (λ k. In a k ⊎ In b k) result }
{
    let mut r = a;
    merge_into(&mut r, &b, |a, b| a | b);
    r
}

// What is in both.
pub fn common(a: [u64; 64], b: [u64; 64]) -> [u64; 64]
    ensures { Holds (λ k. In a k × In b k) result }
{
    let mut r = a;
    merge_into(&mut r, &b, |a, b| a & b);
    r
}

// What is in the first set and not in the second.
pub fn difference(a: [u64; 64], b: [u64; 64]) -> [u64; 64]
    ensures { Holds (λ k. In a k × ¬ In b k) result }
{
    let mut r = a;
    merge_into(&mut r, &b, |a, b| a & !b);
    r
}
