//! What a recovery answers of any engine.

/// How much a recovery tried: the minors tried and the digests made.
#[derive(Clone, Copy, Debug, PartialEq, Eq)]
pub struct Work {
    pub trials: u64,
    pub digests: u64,
}
