//! The tests of fast_text, fast_reading, fast_explain, fast_explain_lines, fast_command and fast_convert. They cover the lines of events, readers and writers;
//! files of lines, with the invalid line; explanations of faults; streams and their lines, the lines of a set, arguments and their plans,
//! and the ends of runs; lines and the streams written from them. They are in a separate crate so that each of the tested crates is proved
//! once, and in one crate since the linked code of a test crate is expensive to prove, and these tests link much of the same code.
#![tactic(auto)]

#[cfg(test)]
mod tests;
