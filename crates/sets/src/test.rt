// What is asked of a set.
ghost use Rattle.std.specs.Prelude.{◌≡◌, ◌↔◌, ℕ, ◌*◌, ◌<◌, T, length};
ghost use Rattle.sets.specs.Bits.{ones};
ghost use Rattle.sets.specs.Sets.{In, Inside};

pub fn is_empty(a: [u64; 64]) -> bool
    ensures { T result ↔ ((k : ℕ) → ¬ In a k) }
{
    a.iter().fold(0, |all, word| all | word) == 0
}

// Whether a set is empty whose members all stand in the first so many words: where that is one word, no other is looked at.
pub fn is_front_empty(set: &[u64; 64], words: usize) -> bool
    requires { Inside (64 * words) set.now }
    ensures { T result ↔ ((k : ℕ) → ¬ In set.now k) }
{
    if words == 1 {
        set[0] == 0
    } else {
        is_empty(*set)
    }
}

// How many members a set has: the ones in its words.
pub fn count(a: [u64; 64]) -> usize
    ensures { result ≡ ones a }
{
    a.iter().map(|word| word.count_ones() as usize).sum()
}

// Whether k is in a set. It takes any number of words.
pub fn has(words: &[u64], k: usize) -> bool
    requires { k < 64 * length words.now }
    ensures { T result ↔ In words.now k }
{
    (words[k / 64] >> (k % 64)) % 2 == 1
}
