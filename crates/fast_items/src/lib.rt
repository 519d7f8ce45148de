//! Fields of which all units, or all but the last, are in the piece completely, as the arms of the loop read them: from the bytes to a
//! value and the dictionary after it.
#![tactic(auto)]

pub mod ascii_items;
pub mod begun_texts;
pub mod decimal_items;
pub mod decimal_parts;
pub mod integer_items;
mod joined_parts;
pub mod lent_texts;
pub mod long_ascii;
pub mod part_items;
pub mod taken;
pub mod unsent_items;
pub mod vector_items;
