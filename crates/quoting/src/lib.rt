//! What a station's block will cost, and who bears it: a request is read from text, and its quote is written as text.
#![tactic(auto)]

pub mod answer;
pub mod choice;
pub mod complaint;
mod draft;
mod entry;
pub mod quotation;
pub mod request;
mod words;
