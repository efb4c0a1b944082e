//! What every test compares by, proved once: a test into which five `assert_eq!` are written takes a minute.

use std::process::Abort;
use tests_kit::Compared;

/// Both are equal.
pub fn same<T: Compared>(rt: &impl Abort, found: T, wanted: T) {
    assert_eq!(rt; found, wanted);
}

/// Both are equal in what has this name.
pub fn same_in<T: Compared>(rt: &impl Abort, name: &str, found: T, wanted: T) {
    assert_eq!(rt; found, wanted, "{name}");
}
