// Refusals and answers: what every entry point says, and the number that the documents give it.
// Nothing here knows tables or rules.
#![tactic(auto)]

ghost use Rattle.std.specs.Prelude.{◌≡◌, ◌++◌, ◌≤◌, length, drop};
ghost use Rattle.answers.specs.Refusal.{number_of};
ghost use Rattle.answers.specs.Answer.{wrote, lent};
ghost use Rattle.answers.specs.Written.{Answers};

// Document 01, "Turned back", and document 02: the refusals in the order of their numbers.
#[derive(Clone, Copy, Debug, PartialEq, Eq)]
pub enum Refusal {
    CutShort,
    Overfull,
    NotEntered,
    BadMark,
    NoSuchItem,
    Miscounted,
    Rank,
    Overreach,
    Twin,
    LeftOver,
    RuleLength,
    Deep,
    NotARule,
    KindMismatch,
    Choices,
    NoRulesFormula,
    ShortSheet,
    NotAnOrder,
    Page,
    Left,
    FullHouse,
    NotOpen,
    Reader,
}

// The documents' number of a refusal.
impl From<Refusal> for u32 {
    ghost from_gives = { λ refusal n. n ≡ number_of refusal };

    fn from(refusal: Refusal) -> u32 {
        match refusal {
            Refusal::CutShort => 1,
            Refusal::Overfull => 2,
            Refusal::NotEntered => 3,
            Refusal::BadMark => 4,
            Refusal::NoSuchItem => 5,
            Refusal::Miscounted => 6,
            Refusal::Rank => 7,
            Refusal::Overreach => 8,
            Refusal::Twin => 9,
            Refusal::LeftOver => 10,
            Refusal::RuleLength => 11,
            Refusal::Deep => 12,
            Refusal::NotARule => 13,
            Refusal::KindMismatch => 14,
            Refusal::Choices => 15,
            Refusal::NoRulesFormula => 16,
            Refusal::ShortSheet => 17,
            Refusal::NotAnOrder => 18,
            Refusal::Page => 19,
            Refusal::Left => 20,
            Refusal::FullHouse => 21,
            Refusal::NotOpen => 22,
            Refusal::Reader => 23,
        }
    }
}

// Writes the text to the front of the lent output, or says 17 and leaves it as it is.
pub fn lend(text: &[u8], out: &mut [u8]) -> Result<usize, Refusal>
    ensures { Answers (lent (length out.old) (wrote text.now)) out.old out.new result }
{
    if out.len() < text.len() {
        return Err(Refusal::ShortSheet);
    }
    out[..text.len()].copy_from_slice(text);
    Ok(text.len())
}
