// Board text: the reader and the writer.
#![tactic(auto)]

mod digits;
mod fill;
mod format;
mod kinds;
mod line;
mod lines;
mod opened;
mod pen;
mod reader;
mod refusals;
mod spot_line;
mod survey;
mod writer;

pub use board::Refusal;
pub use format::{Formatted, reformat, refusal_line, text_of};
pub use reader::read;
pub use refusals::{TextRefusal, WriteRefusal};
pub use writer::write;
