// 5.9.19 cdef_params: its record, and what it goes by.
ghost use Rattle.std.specs.Prelude.{◌≡◌, ◌||◌, not, ◌^◌, min};

#[derive(Clone, Copy)]
pub struct CdefParams {
    pub cdef_bits: u32,
    pub cdef_damping: u32,
    pub cdef_y_pri_strength: [u32; 8],
    pub cdef_y_sec_strength: [u32; 8],
    pub cdef_uv_pri_strength: [u32; 8],
    pub cdef_uv_sec_strength: [u32; 8],
}

// What the headers say: the planes are 1 if mono_chrome, and any other number counts as 3.
#[derive(Clone, Copy)]
pub struct CdefContext {
    pub coded_lossless: bool,
    pub allow_intrabc: bool,
    pub enable_cdef: bool,
    pub planes: u32,
}

impl CdefContext {
    pub fn is_off(self) -> bool
        ensures { result ≡ (self.coded_lossless || self.allow_intrabc || not self.enable_cdef) }
    {
        self.coded_lossless || self.allow_intrabc || !self.enable_cdef
    }
}

// How many of the eight places of strengths are coded.
pub fn places(bits: u32) -> usize
    ensures { result ≡ min (2 ^ bits) 8 }
{
    match bits {
        0 => 1,
        1 => 2,
        2 => 4,
        _ => 8,
    }
}

// The most bits that the part takes, whatever its record and what it goes by: crates/room.
pub const CDEF_PARAMS_MAX_BITS: usize = 100;
