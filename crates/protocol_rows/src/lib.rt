//! Worked rows of the control protocol: windows of acknowledgements, ledgers, the bytes of packets, and what is published.
#![tactic(auto)]

#[cfg(test)]
mod tests;
