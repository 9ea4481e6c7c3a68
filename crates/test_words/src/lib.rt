//! Tests of what only memory can do to the program's words and worlds: calls that fail by plan,
//! outputs that take one byte, and PDUs that are made. What words write of texts is data, in
//! `tools/word_cases.py`.
#![tactic(auto)]

#[cfg(test)]
mod failing;
#[cfg(test)]
mod made;
#[cfg(test)]
mod memory;
#[cfg(test)]
mod world;
