//! What the grammar promises.
ghost use Rattle.grammar.specs.Calls.{Canonical};
ghost use Rattle.grammar.specs.Laws.{CallsExact, OpeningsExact};
ghost use Rattle.grammar.specs.Limits.{LimitsOfLines};

/// Two calls that are spelled alike ask for the same.
pub fn one_call_for_a_line()
    ensures { Canonical }
{}

/// A call is read from one line only, a line is read as one call or refused for one cause,
/// and no spelling of a call is refused.
pub fn calls_are_read_exactly()
    ensures { CallsExact }
{}

/// The same of openings.
pub fn openings_are_read_exactly()
    ensures { OpeningsExact }
{}

/// The limits of a line, which definitions cite by their names, are the numbers of docs/FORMS.md.
pub fn lines_are_as_long_as_the_forms_say()
    ensures { LimitsOfLines }
{}
