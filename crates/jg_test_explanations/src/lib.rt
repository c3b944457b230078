//! What is told of denied calls: worked rows. They stand above `jg_explain`, so that it is proved once. The texts are
//! cases of `jg_test_cases`.
#![tactic(auto)]

pub mod rows;
