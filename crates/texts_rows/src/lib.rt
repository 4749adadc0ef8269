//! Worked rows of the texts: traces as they are read, drawn and refused, output lines as they are written and read back, and what is told of
//! packets that are received.
#![tactic(auto)]

#[cfg(test)]
mod tests;
