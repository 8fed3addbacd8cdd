// The forms of a text, one on a line.
#![tactic(auto)]

pub mod form;
pub mod line;
pub mod rest;
mod word;

pub use form::Form;
pub use line::read_line;
