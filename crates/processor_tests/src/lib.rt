//! Tests of the processor's crates over their public items, against a real processor and another disassembler. The tables are
//! texts, a row a line, made by the programs in `tests/`.
#![tactic(auto)]

#[cfg(test)]
mod arithmetic;
#[cfg(test)]
mod memory;
#[cfg(test)]
mod rows;
#[cfg(test)]
mod spellings;
#[cfg(test)]
mod units;
