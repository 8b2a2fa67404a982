//! Tests of the crates of texts and lines, over what these crates show.
#![tactic(auto)]

#[cfg(test)]
mod digests;
#[cfg(test)]
mod lines;
#[cfg(test)]
mod stores;
#[cfg(test)]
mod texts;
