//! The tests of fast_wire, fast_value, fast_dict and fast_template, a crate of their own so that each of these is proved once: rows of
//! bytes, worked out by hand; initial values of each type, and values; worked examples of the operators, and their table row by row;
//! template files and their faults, entries and caps.
#![tactic(auto)]

#[cfg(test)]
mod tests;
