//! The tests of fast_decoder and fast_encoder, a crate of their own so that each of these is proved once: streams, with their events and
//! their fault; and messages, with their bytes or their fault. They are in one crate, since the libraries that a crate of tests links are
//! slow to prove, and they link the same ones.
#![tactic(auto)]

#[cfg(test)]
mod tests;
