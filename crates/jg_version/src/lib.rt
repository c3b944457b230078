//! The version of `jg`, which its program and its library for C tell.
#![tactic(auto)]

/// As `jg --version` prints it.
pub const VERSION: &str = "0.2.0";
