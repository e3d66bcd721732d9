// Table bytes: where their parts stand, and the refusals 1 to 7.
#![tactic(auto)]

mod bytes;
mod table_refusals;

pub use bytes::{Entry, counts_in, entry_at, entry_count, entry_start, table_length};
pub use table_refusals::table_refusal;
