//! Hostile use of the proved program, shown by tests alone: cuts at every call, tampering, and sources and
//! sinks that fail.
#![tactic(auto)]

#[cfg(test)]
mod tests;
