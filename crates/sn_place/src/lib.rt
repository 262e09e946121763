//! Where a place of a text is, as a person says it: by line and column.
//!
//! A place is an offset in bytes. Lines end at line feeds and are counted from 1, as are columns, which count characters. What a line and a
//! column are is said in specs/Place by the bytes in front of the place.
#![tactic(auto)]

mod line;
mod places;
mod position;

pub use line::{line_around, numbered_line};
pub use places::Places;
pub use position::{Position, begins_character, position_at};
