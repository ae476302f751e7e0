//! What many rows assert. An assertion is proved wherever it is written, so these are written once.
use std::process::Abort;

/// Asserts that a text reads so.
pub(crate) fn reads(rt: &impl Abort, shows: &str, found: &[u8], wanted: &[u8]) {
    assert_eq!(rt; found, wanted, "{shows}");
}

/// Asserts that what the row shows is so.
pub(crate) fn holds(rt: &impl Abort, shows: &str, is_so: bool) {
    assert!(rt; is_so, "{shows}");
}
