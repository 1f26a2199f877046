//! A set of numbers below `MOST_DESCRIPTORS`, by one bit a number.
ghost use Rattle.std.specs.Prelude.{◌≡◌, ◌≢◌, ◌<◌, ℕ, IfSome, IfNone};
ghost use Rattle.abi_base.specs.declared.limits.TheConstants.{MOST_DESCRIPTORS};
ghost use Rattle.fd_table.specs.Marks.{mark_of};

// How many words have a bit for each number.
pub(crate) const WORDS: usize = 16;

// How many bits a word has.
const WORD_BITS: u32 = 64;

// Sets the bit of this number.
pub(crate) fn mark(words: &mut [u64; WORDS], number: u32)
    requires { number < MOST_DESCRIPTORS }
    ensures same { mark_of words.new number ≡ 1 }
    ensures others { (k : ℕ) → k ≢ number → mark_of words.new k ≡ mark_of words.old k }
{
    let place = (number / WORD_BITS) as usize;
    words[place] |= 1 << (number % WORD_BITS);
}

// Clears the bit of this number, where it has one.
pub(crate) fn unmark(words: &mut [u64; WORDS], number: u32)
    ensures same { mark_of words.new number ≡ 0 }
    ensures others { (k : ℕ) → k ≢ number → mark_of words.new k ≡ mark_of words.old k }
{
    let place = (number / WORD_BITS) as usize;
    if place >= WORDS {
        return;
    }
    words[place] &= !(1 << (number % WORD_BITS));
}

// The lowest number whose bit isn't set. Looks at words, and not at each number.
pub(crate) fn lowest_unmarked(words: &[u64; WORDS]) -> Option<u32>
    ensures below { IfSome result (λ number. number < MOST_DESCRIPTORS) }
    ensures unmarked { IfSome result (λ number. mark_of words.now number ≡ 0) }
    ensures lower { IfSome result (λ number. (k : ℕ) → k < number → mark_of words.now k ≡ 1) }
    ensures full { IfNone result ((k : ℕ) → k < MOST_DESCRIPTORS → mark_of words.now k ≡ 1) }
{
    for (place, word) in words.iter().enumerate() {
        if *word != u64::MAX {
            return Some(place as u32 * WORD_BITS + word.trailing_ones());
        }
    }
    None
}

// The lowest number whose bit is set. Looks at words, and not at each number.
pub(crate) fn lowest_marked(words: &[u64; WORDS]) -> Option<u32>
    ensures below { IfSome result (λ number. number < MOST_DESCRIPTORS) }
    ensures marked { IfSome result (λ number. mark_of words.now number ≡ 1) }
    ensures lower { IfSome result (λ number. (k : ℕ) → k < number → mark_of words.now k ≡ 0) }
    ensures none { IfNone result ((k : ℕ) → k < MOST_DESCRIPTORS → mark_of words.now k ≡ 0) }
{
    for (place, word) in words.iter().enumerate() {
        if *word != 0 {
            return Some(place as u32 * WORD_BITS + word.trailing_zeros());
        }
    }
    None
}
