// Job bytes: the reader and the writer, each over one record at a time.
#![tactic(auto)]

mod field;
mod format;
mod marks;
pub mod reader;
mod record;
pub mod writer;
