// The whole text of a trace: how it begins to be wrong (document 01, refusals 2 to 5), and its records one after another.
#![tactic(auto)]

mod buses;
mod checking;
mod reader;

pub use checking::{LIMIT, Refusal, check_text, too_long};
pub use reader::{Reader, record_at};
