//! Tests of the explanations of template files, streams and lines.

mod lines;
mod streams;
mod templates;
