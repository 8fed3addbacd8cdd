// Texts of bracketed parts: how a value is read and written.
#![tactic(auto)]

pub mod both;
pub mod buffer;
mod entry;
pub mod form;
pub mod number;
pub mod part;
pub mod room;
pub mod sink;
pub mod writer;

pub use both::{Before, Both};
pub use buffer::write;
pub use form::TextForm;
pub use number::put_number;
pub use part::PartText;
pub use room::Room;
pub use sink::Sink;
pub use writer::Writer;
