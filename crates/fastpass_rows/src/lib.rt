//! Worked rows: words and a trace, run from bytes to bytes.
#![tactic(auto)]

#[cfg(test)]
mod tests;
