//! Tests of roles that run over loopback with numbers that no word can ask for, and of the statuses
//! of their words.
#![tactic(auto)]

#[cfg(test)]
mod replacements;
#[cfg(test)]
mod statuses;
