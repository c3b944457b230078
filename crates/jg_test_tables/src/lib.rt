//! The tables as their users meet them, and lines, setups and the command line: tests of public calls, with memory that
//! is refused and with as many rows as there may be. Nothing is proved here but that the tests are safe; they stand
//! above the crates that they test, so that those are proved once.
#![tactic(auto)]

#[cfg(test)]
mod tests;
