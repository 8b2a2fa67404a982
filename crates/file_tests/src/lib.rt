//! Tests of the crates of files, words and requests, over what these crates show.
#![tactic(auto)]

#[cfg(test)]
mod files;
#[cfg(test)]
mod greeting;
#[cfg(test)]
mod images;
#[cfg(test)]
mod made;
#[cfg(test)]
mod memory;
#[cfg(test)]
mod modules;
#[cfg(test)]
mod parts;
#[cfg(test)]
mod placing;
#[cfg(test)]
mod requests;
#[cfg(test)]
mod scripts;
#[cfg(test)]
mod systems;
#[cfg(test)]
mod words;
