//! The law over every run of calls from a book just opened.
ghost use Rattle.law.specs.Laws.{Lawful};

use book::{Book, Pages};
use share::key::Key;
use tariff::tariff::Tariff;

/// Whatever calls led to this book and these pages from a book just opened, the law holds of them.
pub fn every_run_keeps_the_law<T: Tariff, K: Key>(book: &Book<T, K>, pages: &Pages)
    ensures { Lawful book.now pages.now }
{}
