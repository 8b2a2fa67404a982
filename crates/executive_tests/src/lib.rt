//! Tests of the executive's parts, over their public calls.
#![tactic(auto)]

#[cfg(test)]
mod dues;
#[cfg(test)]
mod fifos;
#[cfg(test)]
mod gates_on_threads;
#[cfg(test)]
mod plain_dues;
#[cfg(test)]
mod plain_fifos;
#[cfg(test)]
mod ready_threads;
#[cfg(test)]
mod threads;
