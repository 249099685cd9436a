// One label further: the places behind those of a set where the label stands.
ghost use Rattle.std.specs.Prelude.{◌↔◌, ◌+◌, ◌<◌, T, length};
ghost use Rattle.sets.specs.Sets.{Image, Inside};
ghost use Rattle.rules.specs.Language.{one};
ghost use Rattle.matching.specs.Spans.{Spans, LabelAt};

use crate::words_of;
use sets::keep;

// Whether the label stands at place p.
fn stands_at(word: &[u8], label: usize, p: usize) -> bool
    ensures { T result ↔ LabelAt word.now label p }
{
    p < word.len() && usize::from(word[p]) == label
}

// Where the label ends that stands at a place of the set, written over the set: its places are moved up by one, and the last of a word
// of the set goes to the next word. Behind the words that can hold a place there is nothing to move.
// (How many words these are is found here and not handed in, so that the compiler sees that they are one or all, and keeps the set at hand.)
pub(crate) fn go_over(word: &[u8], label: usize, set: &mut [u64; 64])
    requires short { length word.now < 4096 }
    requires inside { Inside (length word.now + 1) set.old }
    ensures { Image (Spans (one label) word.now) set.old set.new }
{
    let mut last = 0;
    for w in 0..words_of(word) {
        let kept = keep(set[w], |k| stands_at(word, label, 64 * w + k));
        set[w] = (kept << 1) | last;
        last = kept >> 63;
    }
}
