//! Tests of levelled lines, of lines that are written by transactions, of the engine over a counter tree, and of the
//! sessions over each, by their public calls.
#![tactic(auto)]

#[cfg(test)]
mod tests;
