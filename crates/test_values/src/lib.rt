//! Tests of values that only a caller can make: parts of packets and of texts, and answers and
//! causes with their lines; packets that wait, and a node of a role of its own. What bytes and
//! numbers can ask for stands in `test_base`.
#![tactic(auto)]

#[cfg(test)]
mod answers;
#[cfg(test)]
mod causes;
#[cfg(test)]
mod lasting;
#[cfg(test)]
mod lengths;
#[cfg(test)]
mod named;
#[cfg(test)]
mod packets;
#[cfg(test)]
mod parts;
#[cfg(test)]
mod waiting;
