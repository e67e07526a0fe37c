// 5.9.20 lr_params: its record, and what it goes by.
ghost use Rattle.std.specs.Prelude.{◌≡◌, ◌&&◌, ◌||◌, not};
ghost use Rattle.restoration.specs.Restoration.{used, chroma_used};

// The kinds are the coded ones: none 0, switchable 1, Wiener 2, self-guided 3.
#[derive(Clone, Copy)]
pub struct LoopRestorationParams {
    pub frame_restoration_type: [u32; 3],
    pub uses_lr: bool,
    pub uses_chroma_lr: bool,
    pub lr_unit_shift: u32,
    pub lr_uv_shift: u32,
}

// What the headers say: the planes are 1 if mono_chrome, and any other number counts as 3.
#[derive(Clone, Copy)]
pub struct LoopRestorationContext {
    pub all_lossless: bool,
    pub allow_intrabc: bool,
    pub enable_restoration: bool,
    pub planes: u32,
    pub use_128x128_superblock: bool,
    pub subsampling_x: bool,
    pub subsampling_y: bool,
}

impl LoopRestorationContext {
    pub fn is_off(self) -> bool
        ensures { result ≡ (self.all_lossless || self.allow_intrabc || not self.enable_restoration) }
    {
        self.all_lossless || self.allow_intrabc || !self.enable_restoration
    }

    // Whether lr_uv_shift is coded, where a chroma plane is restored or none is.
    pub fn codes_uv_shift(self, chroma: bool) -> bool
        ensures { result ≡ (self.subsampling_x && self.subsampling_y && chroma) }
    {
        self.subsampling_x && self.subsampling_y && chroma
    }
}

// Whether a plane is restored: from the luma kind, and whether chroma is.
pub fn used(y: u32, chroma: bool) -> bool
    ensures { result ≡ used y chroma }
{
    y != 0 || chroma
}

// Whether chroma is restored, from its two kinds.
pub fn chroma_used(u: u32, v: u32) -> bool
    ensures { result ≡ chroma_used u v }
{
    u != 0 || v != 0
}

// The most bits that the part takes, whatever its record and what it goes by: crates/room.
pub const LR_PARAMS_MAX_BITS: usize = 9;
