// The OBU header, as the Rust has it; obu_type is its number.
#[derive(Clone, Copy)]
pub struct ObuHeader {
    pub obu_type: u32,
    pub extension_flag: bool,
    pub has_size_field: bool,
    pub temporal_id: u32,
    pub spatial_id: u32,
}
