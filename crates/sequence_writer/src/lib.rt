// The sequence header OBU (5.5), written.
#![tactic(auto)]

mod optional; // optional.rt: fields that are coded or inferred
pub mod write; // write.rt: 5.5.1, whole
mod write_color; // write_color.rt: 5.5.2
mod write_frame; // write_frame.rt: the frame's size and identifiers
mod write_points; // write_points.rt: the operating points, and 5.5.5
mod write_timing; // write_timing.rt: 5.5.3, 5.5.4
mod write_tools; // write_tools.rt: the coding tools
