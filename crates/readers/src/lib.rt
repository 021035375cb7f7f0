// One line of the day sheet that a reader sees, who holds a word of users (document 02, N10).
// The tables are read into words, the words are cut to the reader's users, and the line is that of the cut tables.
#![tactic(auto)]

ghost use Rattle.std.specs.Prelude.{length};
ghost use Rattle.answers.specs.Answer.{lent};
ghost use Rattle.answers.specs.Written.{Answers};
ghost use Rattle.tables.specs.Code.Loaded.{Loaded};
ghost use Rattle.readers.specs.Reader.{reader_line};
ghost use Rattle.readers.specs.Code.Lending.{LendsOn};

use answers::Refusal;
use tables::layout::{USER_COUNT, WHOLE};

// Lends the line at a place of accepted tables, held as words.
fn lend_line(words: &[u64], rules: &[u8], place: usize, out: &mut [u8]) -> Result<usize, Refusal>
    requires { Loaded words.now }
    ensures { LendsOn words.now rules.now place out.old out.new result }
{
    let mut text = [0u8; sheets::LINE_ROOM];
    let n = sheets::judged_line(words, rules, place, &mut text);
    answers::lend(&text[..n], out)
}

// The line at a place, from 1, of the day sheet for this reader; no bytes at any other place.
pub fn line(
    tables: &[u8],
    reader: u64,
    rules: &[u8],
    place: usize,
    out: &mut [u8],
) -> Result<usize, Refusal>
    ensures { Answers (lent (length out.old) (reader_line tables.now reader rules.now place)) out.old out.new result }
{
    let mut words = [0u64; WHOLE];
    tables::load(tables, &mut words)?;
    if words::outside(reader, words[USER_COUNT]) {
        return Err(Refusal::Reader);
    }
    cuts::cut(&mut words, reader);
    lend_line(&words, rules, place, out)
}
