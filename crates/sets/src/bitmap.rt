// A set as the bytes of a bitmap.
ghost use Rattle.std.specs.Prelude.{◌≡◌, ℕ, ◌<◌};
ghost use Rattle.sets.specs.Bits.{bit_of};

// The 512 bytes with the bits of the set: a word's lowest byte comes first.
pub fn bytes(set: [u64; 64]) -> [u8; 512]
    ensures { (k : ℕ) → k < 4096 → bit_of 8 result k ≡ bit_of 64 set k }
{
    let mut r = [0u8; 512];
    for (i, word) in set.iter().enumerate() {
        r[8 * i..8 * i + 8].copy_from_slice(&word.to_le_bytes());
    }
    r
}
