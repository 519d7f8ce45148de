//! The commands of fastcat, over readers and writers: showing FAST streams as lines, and checking template sets.
#![tactic(auto)]

pub mod check;
pub mod closing;
pub mod faults;
pub mod list;
pub mod sets;
pub mod show;
pub mod texts;
pub mod unhexer;
pub mod vectors;

pub use check::run_check;
pub use faults::{RunFault, ShowEnd, report};
pub use sets::read_templates;
pub use show::{run_show, show_all};
pub use texts::read_whole;
pub use vectors::built_in;
