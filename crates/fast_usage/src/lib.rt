//! The command line of fastcat: its subcommands, arguments and help, defined for clap.
#![tactic(auto)]

pub mod commands;

pub use commands::fastcat_command;
