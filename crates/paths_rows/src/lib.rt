//! Worked rows and random slots of the paths: networks, the colouring of a slot, and the cores of tables by path workers.
#![tactic(auto)]

#[cfg(test)]
mod tests;
