//! What spelling promises.
ghost use Rattle.spell.specs.Examples.{Examples};
ghost use Rattle.spell.specs.Laws.{ReadBack, OneLineEach, WrittenFits, Both};
ghost use Rattle.spell.specs.Limits.{LeastPages};

/// Reading what was written of a call gives the call.
pub fn spelled_reads_back()
    ensures { Both ReadBack }
{}

/// A call that fits a line has exactly one line, and what is written fits.
pub fn fitting_call_has_one_line()
    ensures one { Both OneLineEach }
    ensures fits { WrittenFits }
{}

/// A few lines as they read.
pub fn worked_lines()
    ensures { Examples }
{}

/// The least lengths of pages, which definitions cite by their names, are the numbers of docs/FORMS.md.
pub fn pages_are_as_long_as_the_forms_say()
    ensures { LeastPages }
{}
