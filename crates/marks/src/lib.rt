// Numbers that are marked, one bit each, in words of 64 that the caller lends: starts that are ruled out, nodes that are visited, steps in
// which a link is entered.
#![tactic(auto)]

ghost use Rattle.std.specs.Prelude.{◌≡◌, ◌/◌, ◌%◌, ◌^◌, eqb, length, get_or, set};
ghost use Rattle.std.specs.Int.{bit_at};
ghost use Rattle.std.specs.Int.Bits.{bit_or};
ghost use Rattle.counting.specs.Count.{pick};
ghost use Rattle.marks.specs.Marks.{marked, unmarked, with_mark, wiped, with_start, with_starts, FirstUnmarked};

// As many words as have the numbers below the bound, so that the answer is small however many words are lent.
const WORDS: usize = 65536 / 64;

// Takes every mark away.
#[tactic(auto, unfolding(crate::specs::Marks::unmarked))]
pub fn clear(words: &mut [u64])
    ensures { words.new ≡ unmarked (length words.old) }
{
    words.fill(0);
}

// A word of marks in hand, to look at and to mark in, in place of the one that stands among the words.
#[derive(Clone, Copy, Debug, PartialEq, Eq)]
pub struct Word {
    pub at: usize,
    pub bits: u64,
}

impl Word {
    // Takes the number's word in hand. One beyond the words has no mark.
    pub fn take(words: &[u64], n: usize) -> Word
        ensures { (result.at ≡ n / 64) × (result.bits ≡ get_or words.now (n / 64) 0) }
    {
        let at = n / 64;
        Word {
            at,
            bits: words.get(at).copied().unwrap_or(0),
        }
    }

    // Puts the word in hand back. One beyond the words is dropped.
    pub fn put(self, words: &mut [u64])
        ensures { words.new ≡ set words.old self.at self.bits }
    {
        // no `get_mut`: the contract of std's says nothing of what the slice ends as
        if self.at < words.len() {
            words[self.at] = self.bits;
        }
    }

    // The number's word in hand. Where it is another than the one in hand, that is put back first.
    pub fn change(self, n: usize, words: &mut [u64]) -> Word
        ensures at_value { (result.at ≡ n / 64) × (result.bits ≡ pick (eqb self.at (n / 64)) self.bits (get_or words.old (n / 64) 0)) }
        ensures put { words.new ≡ pick (eqb self.at (n / 64)) words.old (set words.old self.at self.bits) }
    {
        if self.at == n / 64 {
            return self;
        }
        self.put(words);
        Word::take(words, n)
    }

    // Whether the number is marked in its word.
    pub fn is_marked(self, n: usize) -> bool
        ensures { result ≡ eqb (bit_at self.bits (n % 64)) 1 }
    {
        (self.bits >> (n % 64)) % 2 == 1
    }

    // The number's word with its mark.
    pub fn with_mark(self, n: usize) -> Word
        ensures { (result.at ≡ self.at) × (result.bits ≡ bit_or self.bits (2 ^ (n % 64))) }
    {
        Word {
            at: self.at,
            bits: self.bits | 1 << (n % 64),
        }
    }
}

// Whether the number is marked. None beyond the words is.
#[tactic(auto, unfolding(crate::specs::Marks::marked))]
pub fn is_marked(words: &[u64], n: usize) -> bool
    ensures { result ≡ marked words.now n }
{
    Word::take(words, n).is_marked(n)
}

// Marks the number. One beyond the words is dropped.
#[tactic(auto, unfolding(crate::specs::Marks::with_mark))]
pub fn mark(words: &mut [u64], n: usize)
    ensures { words.new ≡ with_mark words.old n }
{
    Word::take(words, n).with_mark(n).put(words);
}

// Takes the number's mark away, with all others in its word.
#[tactic(auto, unfolding(crate::specs::Marks::wiped))]
pub fn wipe(words: &mut [u64], n: usize)
    ensures { words.new ≡ wiped words.old n }
{
    let unmarked = Word {
        at: n / 64,
        bits: 0,
    };
    unmarked.put(words);
}

// Marks the start from which the offset leads to the step, if there is one, in the word in hand, which is changed for its own.
fn mark_start(word: Word, step: u16, offset: usize, words: &mut [u64]) -> Word
    ensures { set words.new result.at result.bits ≡ with_start offset step (set words.old word.at word.bits) }
{
    let Some(n) = usize::from(step).checked_sub(offset) else {
        return word;
    };
    word.change(n, words).with_mark(n)
}

// Marks the start of each of the steps.
pub fn mark_starts(steps: &[u16], offset: usize, words: &mut [u64])
    ensures { words.new ≡ with_starts offset steps.now words.old }
{
    let mut word = Word::take(words, 0);
    for &step in steps {
        word = mark_start(word, step, offset, words);
    }
    word.put(words);
}

// The first number without a mark: the lowest bit that is not set in the first word that is not full.
// Where there is none it is the bound, and no `None`: `FirstUnmarked` says so, the public promise that docs/PROMISES.md names.
pub fn first_unmarked(words: &[u64]) -> usize
    ensures { FirstUnmarked words.now result }
{
    let looked = &words[..words.len().min(WORDS)];
    // the answer comes out by a `break`, as document 01 wants of a search
    'words: {
        for (at, &word) in looked.iter().enumerate() {
            if word != u64::MAX {
                // std has no `usize::from` for 32 bits
                break 'words 64 * at + word.trailing_ones() as usize;
            }
        }
        64 * looked.len()
    }
}
