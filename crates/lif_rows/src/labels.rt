//! What stops a test, and tells where.
use std::process::Abort;

/// Stops the test where what is asserted does not hold.
pub fn check(rt: &impl Abort, good: bool, label: &str) {
    assert!(rt; good, "{label}");
}

/// Stops the test where what is asserted of the row of this name does not hold.
pub fn named(rt: &impl Abort, good: bool, label: &str, name: &str) {
    assert!(rt; good, "{name}: {label}");
}

/// Stops the test where what is asserted of row `k` does not hold.
pub fn row(rt: &impl Abort, good: bool, label: &str, k: u64) {
    assert!(rt; good, "{label} {k}");
}
