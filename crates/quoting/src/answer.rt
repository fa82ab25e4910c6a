//! The quote that the text of a request asks for.
ghost use Rattle.quoting.specs.Lines.{Refused};
ghost use Rattle.quoting.specs.Reports.{Replied};
ghost use Rattle.std.specs.Result.{MatchResult};

use crate::complaint::Complaint;
use crate::quotation::Quotation;
use crate::request::read_request;

/// The quote that the text of a request asks for, or the first line that is wrong.
pub fn answer(text: &str) -> Result<Quotation, Complaint>
    ensures { MatchResult result (Replied text.now) (Refused text.now) }
{
    let request = read_request(text)?;
    Ok(request.quote())
}
