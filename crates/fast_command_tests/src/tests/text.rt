//! Tests of the lines of events, and of readers and writers.

mod lines;
mod slices;
