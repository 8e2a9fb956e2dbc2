//! Transactions of several lines: the header that decides one, what is in memory at each of its writes, and data
//! lines that are so written over an engine.
#![tactic(auto)]

mod edits;
mod header;
mod laws;
mod store;

pub use header::{header_line, read_header};
pub use laws::{
    commit_is_determined, headers_name_one_list, opening_is_determined, transactions_are_whole,
    zero_lines_are_logged,
};
pub use store::{CommitFault, Committed, Opened, Store, TxnFault};
