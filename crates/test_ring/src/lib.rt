//! Tests of what no contract says of tables, rings and scripts: that threads run at the same time
//! and finish, when the gate is called, and how much memory a read allocates. Some values worked
//! out by hand are tested here too. What a call returns is in its contract, and what a script
//! prints is in examples/. Begin reading at `setting.rt`.
#![tactic(auto)]

#[cfg(test)]
mod beside;
#[cfg(test)]
mod cases;
#[cfg(test)]
mod certificates;
#[cfg(test)]
mod gates;
#[cfg(test)]
mod keys;
#[cfg(test)]
mod removals;
#[cfg(test)]
mod setting;
#[cfg(test)]
mod tables;
#[cfg(test)]
mod values;
