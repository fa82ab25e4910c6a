//! Reads a line as a form.
ghost use Rattle.std.specs.Prelude.{◌≡◌, [], ◌∷◌, ◌++◌, take};
ghost use Rattle.lines.specs.Forms.{ReadsForm};

use super::{MOST_GATHERED, Parts};
use arrayvec::ArrayVec;
use grammar::line::LONGEST_LINE;
use tokens::reader::Reader;
use tokens::token::Part;
use units::fault::Fault;

/// Keeps an argument, if there is room.
fn keep<'a>(args: &mut ArrayVec<Part<'a>, MOST_GATHERED>, arg: Part<'a>)
    ensures { args.new.items ≡ take MOST_GATHERED (args.old.items ++ arg.entry ∷ []) }
{
    if !args.is_full() {
        args.push(arg);
    }
}

/// The form that the line spells; or where the line, if it is not too long, stops beginning a form.
/// No memory is asked for.
pub fn read_form<'a>(line: &'a [u8]) -> Result<Parts<'a>, Fault>
    ensures { ReadsForm line.now result }
{
    if line.len() > LONGEST_LINE {
        return Err(Fault::LongLine {
            length: line.len() as u64,
        });
    }
    let mut reader = Reader::new(line);
    let letters = reader.word()?.part.text();
    let mut args = ArrayVec::new();
    let mut count = 0;
    while let Some(token) = reader.next()? {
        keep(&mut args, token.part);
        count += 1;
    }
    Ok(Parts {
        letters,
        args,
        count,
    })
}
