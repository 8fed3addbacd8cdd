// Days and dates of the Gregorian calendar.
#![tactic(auto)]

pub mod convert;
pub mod date;
pub mod day;
pub mod laws;
mod tables;
pub mod text;

pub use date::Date;
pub use day::Day;
