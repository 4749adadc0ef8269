//! Worked takeovers: two arbiters under leases, event by event.
#![tactic(auto)]

#[cfg(test)]
mod tests;
