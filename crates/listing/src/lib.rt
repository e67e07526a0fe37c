// The fields of one OBU for people to read: a row for each, or the refusal in words.
#![tactic(auto)]

mod color; // color.rt: 5.5.2
mod frame; // frame.rt: the frame's size and identifiers
pub mod list; // list.rt: the public call
mod obu_rows; // obu_rows.rt: 5.3, the OBU around its payload
mod points; // points.rt: the operating points, and 5.5.5
pub mod refusal; // refusal.rt: a refusal in words
pub mod row; // row.rt: one row, in columns, and the reader that the rows go by
mod timing; // timing.rt: 5.5.3, 5.5.4
mod tools; // tools.rt: the coding tools
