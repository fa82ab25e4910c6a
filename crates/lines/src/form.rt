//! A line as a form.
mod reads;

ghost use Rattle.std.specs.Prelude.{◌≡◌, map, MatchOption, ◌≢◌};
ghost use Rattle.std.specs.List.{All};
ghost use Rattle.units.specs.Heads.{name, sorts};
ghost use Rattle.tokens.specs.Tokens.{SoundPart};

use super::arguments::misfit;
use arrayvec::ArrayVec;
pub use reads::read_form;
use tokens::token::Part;
use units::call::MOST_ARGUMENTS;
use units::fault::Fault;
use units::head::Head;

/// How many arguments are kept: one more than any head takes, so that a surplus one shows.
pub const MOST_GATHERED: usize = MOST_ARGUMENTS + 1;

/// A line that is a form.
#[derive(Drop)]
pub struct Parts<'a> {
    /// The letters of its word.
    pub letters: &'a [u8],
    /// The first `MOST_GATHERED` arguments, as a form holds them.
    pub args: ArrayVec<Part<'a>, MOST_GATHERED>,
    /// How many arguments there are, with those that are not kept.
    pub count: usize,
    pub ghost sound: { ∥ All SoundPart args.items ∥₁ },
}

impl Parts<'_> {
    ghost use Rattle.lines.specs.Arguments.{part_sort};
    ghost use Rattle.lines.specs.Forms.{Fits};

    /// The head that the word spells.
    pub(crate) fn head(&self) -> Option<Head>
        ensures { MatchOption result ((h : Head) → self.now.letters.now ≢ name h)
            (λ h. self.now.letters.now ≡ name h) }
    {
        Head::named(self.letters)
    }

    /// Refuses the first argument that is missing, surplus or of the wrong sort.
    pub(crate) fn fit(&self, head: Head) -> Result<(), Fault>
        ensures { Fits (map part_sort self.now.args.items) (sorts head) result }
    {
        match misfit(&self.args, head.sorts()) {
            Some(position) => Err(Fault::BadArgument {
                position: position as u64,
            }),
            None => Ok(()),
        }
    }
}
