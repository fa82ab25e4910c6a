//! A request from its lines.
ghost use Rattle.quoting.specs.Lines.{Granted, Refused};
ghost use Rattle.std.specs.Result.{MatchResult};

use crate::complaint::Complaint;
use crate::draft::Draft;
use crate::request::Request;

/// Reads a request, or names the first line that is wrong.
pub fn read_request(text: &str) -> Result<Request, Complaint>
    ensures { MatchResult result (Granted text.now) (Refused text.now) }
{
    let mut draft = Draft::new();
    let mut line = 1;
    for written in text.lines() {
        draft
            .read_line(written)
            .map_err(|cause| Complaint { line, cause })?;
        line += 1;
    }
    draft.finish().map_err(|cause| Complaint { line, cause })
}
