//! Worked rows of both ends of a connection: an agent alone, a lane alone, and an endpoint's rounds with both.
#![tactic(auto)]

#[cfg(test)]
mod tests;
