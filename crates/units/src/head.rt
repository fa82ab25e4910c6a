//! The heads of lines, with their letters and the sorts of their arguments.
ghost use Rattle.std.specs.Prelude.{◌≡◌, MatchOption, ◌≢◌};
ghost use Rattle.units.specs.Heads.{name as name_of, sorts as sorts_of};

/// A number, or a list of numbers.
#[derive(Clone, Copy, PartialEq, Eq, Debug)]
pub enum Sort {
    Number,
    List,
}

/// The word that a line begins with: `Open` of a line that opens a book, any other of a call.
#[derive(Clone, Copy, PartialEq, Eq, Debug)]
pub enum Head {
    File,
    Declare,
    Issue,
    Revise,
    Close,
    Read,
    Settle,
    Correct,
    Pay,
    Draw,
    Open,
}

/// Hands each call to a macro, behind what the macro is of: its name, the method of a book that makes it, its letters, its
/// arguments in the order of its line, each with its sort, and what it asks for in words, with `{}` for each argument.
#[macro_export]
macro_rules! each_call {
    ($go:ident $(, $of:expr)*) => {
        $go! {
            $($of),*;
            File file b"file" (station Number, from Number, to Number, kw Number) "file: station {}, blocks {} to {}, {} kW";
            Declare declare b"declare" (generator Number, from Number, to Number, kw Number) "declare: generator {}, blocks {} to {}, {} kW";
            Issue issue b"issue" (station Number) "issue: station {}";
            Revise revise b"revise" (station Number, number Number, notice Number, values List) "revise: station {}, revision {}, notice in block {}, {} kW";
            Close close b"close" (station Number) "close: station {}";
            Read read b"read" (generator Number, from Number, to Number, kw Number) "read: generator {}, blocks {} to {}, {} kW";
            Settle settle b"settle" (station Number) "settle: station {}";
            Correct correct b"correct" (generator Number, block Number, kw Number) "correct: generator {}, block {}, {} kW";
            Pay pay b"pay" (station Number, amount Number) "pay: station {}, {} paise";
            Draw draw b"draw" (station Number, amount Number) "draw: station {}, {} paise";
        }
    };
}

/// A head, its letters, the sorts of the arguments that it takes, and what it asks for in words, with `{}` for each argument.
pub type Row = (Head, &'static [u8], &'static [Sort], &'static str);

/// The rows of calls, and then that of an opening.
macro_rules! rows {
    (; $($name:ident $method:ident $letters:literal ($($field:ident $sort:ident),*) $words:literal;)*) => {
        &[
            $((Head::$name, $letters, &[$(Sort::$sort),*], $words),)*
            (Head::Open, b"open", &[Sort::List; 3], "open: kinds {}, generators {}, installed {} kW"),
        ]
    };
}

/// The head that is spelled so.
macro_rules! named {
    ($letters:expr; $($name:ident $method:ident $own:literal ($($field:ident $sort:ident),*) $words:literal;)*) => {
        match $letters {
            $($own => Some(Head::$name),)*
            b"open" => Some(Head::Open),
            _ => None,
        }
    };
}

/// Each head, in the order of `Head`.
pub const TABLE: &[Row] = each_call!(rows);

impl Head {
    /// The head that is spelled so.
    pub fn named(letters: &[u8]) -> Option<Head>
        ensures { MatchOption result ((h : Head) → letters.now ≢ name_of h) (λ h. letters.now ≡ name_of h) }
    {
        each_call!(named, letters)
    }

    /// Its letters.
    pub fn name(self) -> &'static [u8]
        ensures { result.now ≡ name_of self }
    {
        TABLE[self as usize].1
    }

    /// The sorts of the arguments that it takes.
    pub fn sorts(self) -> &'static [Sort]
        ensures { result.now ≡ sorts_of self }
    {
        TABLE[self as usize].2
    }

    /// What it asks for in words, with `{}` for each argument.
    pub fn words(self) -> &'static str {
        TABLE[self as usize].3
    }
}
