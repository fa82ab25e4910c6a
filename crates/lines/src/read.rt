//! Reads a line as a call, or as the opening of a book.
ghost use Rattle.std.specs.Prelude.{◌≡◌, Bool, MatchResult};
ghost use Rattle.std.specs.Fn.{FnOnceReturnsAt};
ghost use Rattle.grammar.specs.Reads.{ReadsCall, ReadsOpening, Refused};
ghost use Rattle.lines.specs.Forms.{Tells, Fitting};
ghost use Rattle.units.specs.Heads.{calls, openings};

use super::form::{Parts, read_form};
use super::lists::{Lists, Room};
use units::call::{Call, Opening};
use units::fault::Fault;
use units::head::Head;

fn is_opening(head: &Head) -> bool
    ensures { result ≡ openings head.now }
{
    matches!(head, Head::Open)
}

fn is_call(head: &Head) -> bool
    ensures { result ≡ calls head.now }
{
    !is_opening(head)
}

/// The head and the parts of the line, if it is a form, its head is wanted, and its arguments fit the head.
fn read_wanted<'a, W: FnOnce(&Head) -> bool>(
    line: &'a [u8],
    wanted: W,
) -> Result<(Head, Parts<'a>), Fault>
    requires { W.IsAlwaysCallable wanted }
    ensures { (heads : Head → Bool) → Tells (FnOnceReturnsAt W.FnOnce wanted) heads
        → MatchResult result (λ p. Fitting heads line.now p.0 p.1) (Refused heads line.now) }
{
    let parts = read_form(line)?;
    let head = parts.head().filter(wanted).ok_or(Fault::UnknownHead)?;
    parts.fit(head)?;
    Ok((head, parts))
}

/// The call that the line asks for, with the numbers of its list in the room that is lent.
///
/// A line over 1,024 bytes is refused, then one that is no form, then an unknown head, then the first argument that
/// is missing, surplus or of the wrong sort. No memory is asked for.
pub fn read_call<'r>(line: &[u8], room: &'r mut Room) -> Result<Call<'r>, Fault>
    ensures { ReadsCall line.now result }
{
    let (head, parts) = read_wanted(line, is_call)?;
    Call::from_parts(parts.call(head, room)).ok_or(Fault::UnknownHead)
}

/// The opening that the line asks for. It is refused as a call is, and any head but `open` is unknown here.
pub fn read_opening<'r>(line: &[u8], lists: &'r mut Lists) -> Result<Opening<'r>, Fault>
    ensures { ReadsOpening line.now result }
{
    let (_, parts) = read_wanted(line, is_opening)?;
    Ok(parts.opening(lists))
}
