//! What a reader promises.
ghost use Rattle.tokens.specs.Pieces.{EndStays};

/// At the end of the line a reader answers the same again, and stays there.
pub fn end_is_answered_again()
    ensures { EndStays }
{}
