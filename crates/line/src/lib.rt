// One line of a trace, read and written (document 01, 'The trace'): the board's line, or a record's. A line is accepted exactly where it is spelled; else
// the number of its first bad field is told.
#![tactic(auto)]

mod boards;
mod channel_e;
mod channel_f;
mod channel_l;
mod events;
mod numbers;
mod output;
mod records;

pub use boards::{read_board, write_board};
pub use numbers::STAMP;
pub use output::WriteError;
pub use records::{read_record, write_record};
