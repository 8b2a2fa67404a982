//! Tests of whole runs: the worked rows, over the top call with a store and a sink in memory, and the store and the sink of the host.
//!
//! A worked row is a line of text, its fields apart by ` | `. `calls.rt` says how a field is read.
#![tactic(auto)]

#[cfg(test)]
mod calls;
#[cfg(test)]
mod commands;
#[cfg(test)]
mod failures;
#[cfg(test)]
mod flat_images;
#[cfg(test)]
mod guest_calls;
#[cfg(test)]
mod guests;
#[cfg(test)]
mod hardware;
#[cfg(test)]
mod host;
#[cfg(test)]
mod images;
#[cfg(test)]
mod made;
#[cfg(test)]
mod module_files;
#[cfg(test)]
mod modules;
#[cfg(test)]
mod planned;
#[cfg(test)]
mod real_time_lines;
#[cfg(test)]
mod refused_modules;
#[cfg(test)]
mod scripts;
#[cfg(test)]
mod system_files;
#[cfg(test)]
mod systems;
#[cfg(test)]
mod threads;
#[cfg(test)]
mod versions;
