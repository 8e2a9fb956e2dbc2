//! Tests of the program's layers by their public calls: texts, the world, and whole runs.
#![tactic(auto)]

#[cfg(test)]
mod tests;
