//! Tests of the controller's layers by their public calls: paths, the engine, and recovery.
#![tactic(auto)]

#[cfg(test)]
mod tests;
