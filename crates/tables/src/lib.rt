// Tables: read from bytes, checked, and held as one flat array of words.
// The entry points are `read` and `rank_step`; counts and rows are in rows, the sections in sections, the checks of the whole in checks.
#![tactic(auto)]

ghost use Rattle.std.specs.Prelude.{◌≡◌, [], replicate, OnOk};
ghost use Rattle.tables.specs.Flat.{whole_length, flat};
ghost use Rattle.tables.specs.Tables.{Tables};
ghost use Rattle.tables.specs.Reading.{took, sections as sections_of, tables_of, words_of, loaded_of, rank_step_of};
ghost use Rattle.tables.specs.Code.Reads.{reading_outcome};

use crate::checks::{checked, failing_step};
use crate::layout::WHOLE;
use crate::sections::sections;
use answers::Refusal;

mod checks;
mod hierarchy;
pub mod layout;
mod rows;
mod sections;
pub mod twins;

// A row of one word, with the count that its items are below: the word alone, or behind the mark of what was entered.
#[derive(Clone, Copy)]
pub enum Row {
    Plain(u64),
    Marked(u64),
}

// A piece of the bytes that was read, a count, a row or a section: its value, and where the next byte stands.
#[derive(Clone, Copy)]
pub struct Piece {
    pub value: u64,
    pub next: usize,
}

// Reads the tables into words that are all 0. Once the sections are read and nothing is left over, the words have them, accepted or not;
// where reading stopped before, what the words then have means nothing.
pub fn load(bytes: &[u8], words: &mut [u64]) -> Result<(), Refusal>
    requires { words.old ≡ replicate whole_length 0 }
    ensures value { result ≡ reading_outcome (tables_of bytes.now) }
    ensures words_after { OnOk result (words.new ≡ words_of (tables_of bytes.now)) }
    ensures words_after_2 { (T : Tables) → sections_of bytes.now ≡ took T [] → words.new ≡ flat T }
{
    let Piece { next, .. } = sections(bytes, words)?;
    if next < bytes.len() {
        return Err(Refusal::LeftOver);
    }
    checked(words)
}

// Document 01, "Tables": the flat tables, or the refusal.
pub fn read(bytes: &[u8]) -> Result<[u64; WHOLE], Refusal>
    ensures { result ≡ loaded_of (tables_of bytes.now) }
{
    let mut words = [0u64; WHOLE];
    load(bytes, &mut words)?;
    Ok(words)
}

// Document 02, N4: the first step of the hierarchy test that fails, where the tables are refused for it; 0 for all others.
pub fn rank_step(bytes: &[u8]) -> u32
    ensures { result ≡ rank_step_of bytes.now }
{
    let mut words = [0u64; WHOLE];
    let Err(refusal) = load(bytes, &mut words) else {
        return 0;
    };
    match refusal {
        Refusal::Rank => failing_step(&words).map_or(0, |step| step.number()),
        _ => 0,
    }
}
