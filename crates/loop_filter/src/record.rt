// 5.9.11 loop_filter_params: its record, and what it goes by.
ghost use Rattle.std.specs.Prelude.{◌≡◌, ◌||◌};

// The deltas have 32 bits, so that the refusal of one says the width that the number needs.
#[derive(Clone, Copy)]
pub struct LoopFilterParams {
    pub loop_filter_level: [u32; 4],
    pub loop_filter_sharpness: u32,
    pub loop_filter_delta_enabled: bool,
    pub loop_filter_delta_update: bool,
    pub loop_filter_ref_deltas: [i32; 8],
    pub loop_filter_mode_deltas: [i32; 2],
}

// What the headers say: the planes are 1 if mono_chrome, and any other number counts as 3.
#[derive(Clone, Copy)]
pub struct LoopFilterContext {
    pub coded_lossless: bool,
    pub allow_intrabc: bool,
    pub planes: u32,
}

impl LoopFilterContext {
    pub fn is_off(self) -> bool
        ensures { result ≡ (self.coded_lossless || self.allow_intrabc) }
    {
        self.coded_lossless || self.allow_intrabc
    }
}

// The most bits that the part takes, whatever its record and what it goes by: crates/room.
pub const LOOP_FILTER_PARAMS_MAX_BITS: usize = 109;
