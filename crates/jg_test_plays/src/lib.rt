//! Plays as their users meet them: workers that meet, wait, come in chosen orders and are many. Nothing is proved here
//! but that the tests are safe; they stand above the crates that they test, so that those are proved once.
#![tactic(auto)]

#[cfg(test)]
mod tests;
