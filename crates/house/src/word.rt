// A word of 64 bits as a set of the numbers 0 to 63.
ghost use Rattle.std.specs.Prelude.{◌≡◌, ℕ, ◌<◌, ◌&&◌, ◌||◌, ◌==◌};
ghost use Rattle.house.specs.BitSets.{bit};

// What is in either set.
pub(crate) fn union(a: u64, b: u64) -> u64
    ensures { bit result ≡ (λ k. bit a k || bit b k) }
{
    a | b
}

// What is in both sets.
pub(crate) fn intersection(a: u64, b: u64) -> u64
    ensures { bit result ≡ (λ k. bit a k && bit b k) }
{
    a & b
}

// The set with one number more.
pub(crate) fn with(word: u64, number: u32) -> u64
    requires { number < 64 }
    ensures { (k : ℕ) → bit result k ≡ (bit word k || k == number) }
{
    word | (1 << number)
}

// Whether the number is in the set.
pub(crate) fn has(word: u64, number: u32) -> bool
    ensures { result ≡ bit word number }
{
    number < 64 && (word >> number) & 1 == 1
}
