//! What is written where the words have no form.

/// The usage line.
pub const USAGE_LINE: &[u8] =
    b"usage: tj-why [--cells N] [--steps N] [--strict] [--short] [[--all] [--json] | --dot]\n";
