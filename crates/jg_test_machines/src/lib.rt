//! The machines as their users meet them: the guard and its scripts, and the core of facts. Most tests give a machine
//! too little memory. Nothing is proved here but that the tests are safe; they stand above the crates that they test,
//! so that those are proved once.
#![tactic(auto)]

#[cfg(test)]
mod tests;
