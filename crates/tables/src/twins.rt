// Words that are there twice: what a collection, and the rows of a hierarchy, must not have.
// Nothing here knows what the words are of.
ghost use Rattle.std.specs.Prelude.{◌≡◌, not, eqb, length, get_or};
ghost use Rattle.tables.specs.Checks.{all_to, apart as apart_of};
ghost use Rattle.tables.specs.Code.Reads.{slot_of};

// The slots that words are sorted into: a prime number of them, so that few of 64 words share one.
const SLOTS: usize = 1021;

// Whether no word is this one. All are looked at, which is faster than to stop at one.
pub fn is_new(words: &[u64], word: u64) -> bool
    ensures { result ≡ all_to (length words.now) (λ j. not (eqb (get_or words.now j 0) word)) }
{
    let mut twin = false;
    for w in words {
        if *w == word {
            twin = true;
        }
    }
    !twin
}

// A word's slot.
pub fn slot(word: u64) -> usize
    ensures { result ≡ slot_of word }
{
    (word % SLOTS as u64) as usize
}

// No word is there twice. Those before a word are looked at only if it has the slot of one.
pub fn apart(words: &[u64]) -> bool
    ensures { result ≡ apart_of words.now }
{
    let mut taken = [0u8; SLOTS];
    for (i, word) in words.iter().enumerate() {
        let s = slot(*word);
        if taken[s] != 0 && !is_new(&words[..i], *word) {
            return false;
        }
        taken[s] = 1;
    }
    true
}
