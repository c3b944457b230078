//! Tests of machines, by machine, and what they share.

mod facts;
mod guard;

use std::alloc::{AllocError, Global};

/// So many lines of this text.
fn repeated(alloc: Global, line: &str, count: u32) -> Result<String, AllocError> {
    let mut text = String::new(alloc);
    for _ in 0..count {
        text.push_str(line)?;
    }
    Ok(text)
}
