//! Tests of the devices, the board, both owners' units and the dispatch of interrupts, over their public calls.
#![tactic(auto)]

#[cfg(test)]
mod asked_lines;
#[cfg(test)]
mod board;
#[cfg(test)]
mod controllers;
#[cfg(test)]
mod dispatch;
#[cfg(test)]
mod entries;
#[cfg(test)]
mod gates;
#[cfg(test)]
mod held_lines;
#[cfg(test)]
mod ports;
#[cfg(test)]
mod serial_port;
#[cfg(test)]
mod timer;
#[cfg(test)]
mod units;
