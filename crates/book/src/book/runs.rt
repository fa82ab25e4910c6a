//! Calls by their values, one or a list of them.
ghost use Rattle.book.specs.Calls.{Makes};
ghost use Rattle.book.specs.Runs.{Run, step};
ghost use Rattle.book.specs.States.{state};
ghost use Rattle.std.specs.Prelude.{◌≡◌, MatchResult};
ghost use Rattle.units.specs.declared.fault.Fault.TheVariants.{NoMemory};

use super::Book;
use posting::pages::Pages;
use share::key::Key;
use std::alloc::Global;
use tariff::tariff::Tariff;
use units::call::Call;
use units::each_call;
use units::fault::Fault;

/// What the call's own method answers.
macro_rules! made {
    ($book:expr, $pages:expr, $call:expr; $($name:ident $method:ident $letters:literal ($($field:ident $sort:ident),*) $words:literal;)*) => {
        match $call {
            $(Call::$name { $($field),* } => $book.$method($pages, $($field),*),)*
        }
    };
}

impl<T: Tariff, K: Key> Book<T, K> {
    /// Makes the call.
    pub fn apply(&mut self, pages: &mut Pages, call: &Call) -> Result<(), Fault>
        ensures { Makes (step call.now) self.old pages.old self.new pages.new result }
    {
        each_call!(made, self, pages, *call)
    }

    /// Makes each call in turn, and goes on after a refusal. Without memory for the answers, makes none.
    pub fn replay(
        &mut self,
        heap: Global,
        pages: &mut Pages,
        calls: &[Call],
    ) -> Result<Vec<Result<(), Fault>>, Fault>
        ensures run { MatchResult result (λ rs. Run (state self.old pages.old) calls.now rs.items (state self.new pages.new)) (λ e. (e ≡ NoMemory) × (state self.new pages.new ≡ state self.old pages.old)) }
        ensures tariff { self.new.tariff ≡ self.old.tariff }
        ensures key { self.new.key ≡ self.old.key }
    {
        let mut answers = Vec::with_capacity(heap, calls.len())?;
        for call in calls {
            let answer = self.apply(pages, call);
            answers.push_reserved(answer);
        }
        Ok(answers)
    }
}
