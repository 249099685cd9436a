// Sets made from numbers.
ghost use Rattle.std.specs.Prelude.{◌≡◌, ◌↔◌, ◌⊎◌, ℕ, ◌+◌, ◌≤◌, ◌<◌};
ghost use Rattle.sets.specs.Bits.{digit};
ghost use Rattle.sets.specs.Sets.{In, Holds};

pub fn empty() -> [u64; 64]
    ensures { Holds (λ k. ⊥) result }
{
    [0; 64]
}

// Puts k into the set.
pub fn add(set: &mut [u64; 64], k: usize)
    requires { k < 4096 }
    ensures { Holds (λ j. In set.old j ⊎ (k ≡ j)) set.new }
{
    set[k / 64] |= 1 << (k % 64);
}

// A word's share of the first n numbers, of which `before` stand in the words before it.
fn share(n: usize, before: usize) -> u64
    ensures { (k : ℕ) → k < 64 → (digit result k ≡ 1) ↔ (before + k < n) }
{
    if n <= before {
        return 0;
    }
    let most = n - before;
    if most < 64 { (1 << most) - 1 } else { u64::MAX }
}

// The first n numbers: all nodes of a roll.
pub fn below(n: usize) -> [u64; 64]
    requires { n ≤ 4096 }
    ensures { Holds (λ k. k < n) result }
{
    let mut r = [0u64; 64];
    for (i, word) in r.iter_mut().enumerate() {
        *word = share(n, 64 * i);
    }
    r
}
