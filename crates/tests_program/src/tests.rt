//! Each layer over memory.
mod runs;
mod sessions;
mod talks;
mod texts;
mod world;

use std::fmt::Debug;
use std::process::Abort;

/// Stops the test, with both values, unless they are equal. A macro is proved again at each place, and this once.
fn equal<T: PartialEq + Debug + Drop>(rt: &impl Abort, found: T, wanted: T) {
    assert_eq!(rt; found, wanted);
}
