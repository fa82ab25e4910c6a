//! Spells calls as lines.
ghost use Rattle.std.specs.Prelude.{◌≡◌, ◌≤◌, ◌^◌, length};
ghost use Rattle.units.specs.Calls.{asked, opens, parts_said, spoken};
ghost use Rattle.units.specs.Heads.{name};
ghost use Rattle.spell.specs.Causes.{misfit};
ghost use Rattle.spell.specs.Pages.{Lays, wrote};
ghost use Rattle.spell.specs.Spelling.{spelling, spelling_of};
ghost use Rattle.spell.specs.Words.{held_word, line_room, line_text};

use crate::held::all_held;
use crate::page::long_enough;
use crate::words::Word;
use crate::writer::Writer;
pub use grammar::line::LONGEST_LINE;
use units::call::{Call, MOST_ARGUMENTS, Opening, Parts};
use units::fault::Fault;
use units::head::Head;

/// The least page that a line is written to.
pub const LINE_PAGE: usize = LONGEST_LINE;

/// Writes the line to the front of the page, and answers its length.
fn line(page: &mut [u8], head: Head, words: &[Word]) -> usize
    requires { line_room (name head) words.now ≤ 2 ^ 32 }
    ensures { Lays (line_text (name head) words.now) 0 page.old page.new result }
{
    let mut writer = Writer::new(page);
    writer.line(head.name(), words);
    writer.place()
}

/// Writes the head and its words as a line.
#[tactic(auto, using(crate::proofs::Holding::line_has_room, crate::proofs::Laying::onto_page), unfolding(crate::specs::Spelling::spelling_of))]
fn spell(head: Head, words: &[Word], page: &mut [u8]) -> Result<usize, Fault>
    requires { length words.now ≤ MOST_ARGUMENTS }
    ensures { wrote result page.new ≡ spelling_of (misfit held_word words.now) (line_text (name head) words.now) page.old }
{
    long_enough(page, LINE_PAGE)?;
    all_held(words)?;
    let length = line(&mut [], head, words);
    if length > LONGEST_LINE {
        return Err(Fault::LongLine {
            length: length as u64,
        });
    }
    Ok(line(page, head, words))
}

/// Writes the head and its arguments as a line.
#[tactic(auto, using(crate::proofs::Speaking::speaking))]
fn speak(parts: &Parts, page: &mut [u8]) -> Result<usize, Fault>
    ensures { wrote result page.new ≡ spelling (spoken (parts_said parts.now)) page.old }
{
    let words = Word::all_of(parts.values);
    spell(parts.head, &words[0..parts.head.sorts().len()], page)
}

/// Writes the call's line to the front of the page, and answers its length. What stands behind it is kept.
///
/// Refused are a page under 1,024 bytes, then an argument that no form holds, then a line over 1,024 bytes; the page
/// then stays as it was.
pub fn spell_call(call: Call, page: &mut [u8]) -> Result<usize, Fault>
    ensures { wrote result page.new ≡ spelling (asked call.entry) page.old }
{
    speak(&call.parts(), page)
}

/// Writes the line that opens a book, as `spell_call` does.
pub fn spell_opening(opening: Opening, page: &mut [u8]) -> Result<usize, Fault>
    ensures { wrote result page.new ≡ spelling (opens opening.entry) page.old }
{
    speak(&opening.parts(), page)
}
