//! Whether arguments are of the sorts that a head takes.
ghost use Rattle.std.specs.Prelude.{◌≡◌, map, MatchOption};
ghost use Rattle.grammar.specs.Calls.{Misfit};
ghost use Rattle.lines.specs.Arguments.{part_sort};

use tokens::token::Part;
use units::head::Sort;

/// A word goes as a number, which no form holds.
fn sort_of(part: Part) -> Sort
    ensures { result ≡ part_sort part.entry }
{
    match part {
        Part::Word(_) | Part::Number(_) => Sort::Number,
        Part::List(_) => Sort::List,
    }
}

/// The position, from 1, of the first argument that is missing, surplus or of the wrong sort.
pub fn misfit(args: &[Part], sorts: &[Sort]) -> Option<usize>
    ensures { MatchOption result (map part_sort args.now ≡ sorts.now)
        (Misfit (map part_sort args.now) sorts.now) }
{
    match (args, sorts) {
        ([], []) => None,
        ([arg, args @ ..], [sort, sorts @ ..]) if sort_of(*arg) == *sort => {
            misfit(args, sorts).map(|p| p + 1)
        }
        _ => Some(1),
    }
}
