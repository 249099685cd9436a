// The bits of a word that are 1, one by one.
ghost use Rattle.std.specs.Prelude.{ℕ, ◌<◌};
ghost use Rattle.std.specs.Iterator.{at_most};
ghost use Rattle.sets.specs.Ones.{Lowest, Kept};

// Their places, from the lowest up: each is taken out of the word, until none is left.
#[derive(Drop)]
pub struct Ones(pub u64);

impl Iterator for Ones {
    type Item = usize;

    ghost next_gives = { λ s r t. Lowest s.0 r t.0 };

    ghost remaining = { λ s. at_most s.0 };

    fn next(&mut self) -> Option<usize> {
        if self.0 == 0 {
            return None;
        }
        let k = self.0.trailing_zeros();
        self.0 ^= 1 << k;
        Some(k as usize)
    }
}

// The bits of a word at whose places something holds: gathered in a local, and stored once.
pub fn keep<F: Fn(usize) -> bool>(word: u64, holds: F) -> u64
    requires { (k : ℕ) → k < 64 → F.pre holds k }
    ensures { Kept (F.post holds) word result }
{
    let mut kept = 0;
    for k in Ones(word) {
        if holds(k) {
            kept |= 1 << k;
        }
    }
    kept
}
