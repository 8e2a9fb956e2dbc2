//! Cuts at every call, tampering, and failing ends.
mod attacks;
mod chips;
mod cuts;
mod durable;
mod failing;
mod runs;
mod tampering;
mod tripping;

use std::fmt::Debug;
use std::process::Abort;

/// Stops the test, with both values, unless they are equal. A macro is proved again at each place, and this once.
fn equal<T: PartialEq + Debug + Drop>(rt: &impl Abort, found: T, wanted: T) {
    assert_eq!(rt; found, wanted);
}
