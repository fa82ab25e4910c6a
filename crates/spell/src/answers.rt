//! Writes answers.
ghost use Rattle.std.specs.Prelude.{◌≡◌};
ghost use Rattle.spell.specs.Answers.{answer_text, answering};
ghost use Rattle.spell.specs.Pages.{Writes, wrote};

use crate::page::long_enough;
use crate::words::Word;
use crate::writer::Writer;
use units::fault::Fault;

/// The least page that an answer is written to.
pub const ANSWER_PAGE: usize = 64;

/// Writes `(ok)`, or `(no layer number p q)` for a fault, and a line feed.
#[tactic(auto, using(crate::proofs::Answering::refusals))]
fn write(answer: &Result<(), Fault>, writer: &mut Writer)
    requires { writer.old.at ≡ 0 }
    ensures { Writes (answer_text answer.now) ANSWER_PAGE writer.old writer.new }
{
    match answer {
        Ok(()) => writer.fed_line(b"ok", &[]),
        Err(fault) => {
            let refusal = fault.refusal();
            writer.fed_line(
                b"no",
                &[
                    Word::Number(refusal.layer),
                    Word::Number(refusal.number),
                    Word::Number(refusal.place.0),
                    Word::Number(refusal.place.1),
                ],
            );
        }
    }
}

/// Writes `(ok)`, or `(no layer number p q)` for a fault, and a line feed, to the front of the page, and answers the
/// length. What stands behind is kept. A page under 64 bytes is refused and stays as it was.
#[tactic(auto, using(crate::proofs::Laying::onto_page))]
pub fn write_answer(answer: &Result<(), Fault>, page: &mut [u8]) -> Result<usize, Fault>
    ensures { wrote result page.new ≡ answering answer.now page.old }
{
    long_enough(page, ANSWER_PAGE)?;
    let mut writer = Writer::new(page);
    write(answer, &mut writer);
    Ok(writer.place())
}
