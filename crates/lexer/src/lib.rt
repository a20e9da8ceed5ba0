//! The lexer: lines of a text, words of a line, kinds of words.

#![tactic(auto)]

pub mod escape;
mod inside;
pub mod lines;
pub mod word;
pub mod words;
