// The record of the restoration parameters from its numbers, the context first. (No `From`: neither the array nor the record is of this crate.)
ghost use Rattle.std.specs.Prelude.{◌≡◌};
ghost use Rattle.restoration_numbers.specs.Numbers.{lr_context, lr_params};

use crate::place;
use numbers::*;
use restoration::record::*;

pub fn lr_context(n: &[i32; 14]) -> LoopRestorationContext
    ensures { result ≡ lr_context n.now }
{
    LoopRestorationContext {
        all_lossless: flag(n, place::ALL_LOSSLESS),
        allow_intrabc: flag(n, place::ALLOW_INTRABC),
        enable_restoration: flag(n, place::ENABLE_RESTORATION),
        planes: natural(n, place::PLANES),
        use_128x128_superblock: flag(n, place::USE_128X128_SUPERBLOCK),
        subsampling_x: flag(n, place::SUBSAMPLING_X),
        subsampling_y: flag(n, place::SUBSAMPLING_Y),
    }
}

fn kinds(n: &[i32; 14]) -> [u32; 3]
    ensures { result ≡ (lr_params n.now).frame_restoration_type }
{
    [
        natural(n, place::FRAME_RESTORATION_TYPE),
        natural(n, place::FRAME_RESTORATION_TYPE + 1),
        natural(n, place::FRAME_RESTORATION_TYPE + 2),
    ]
}

pub fn lr_params(n: &[i32; 14]) -> LoopRestorationParams
    ensures { result ≡ lr_params n.now }
{
    let frame_restoration_type = kinds(n);
    LoopRestorationParams {
        frame_restoration_type,
        uses_lr: flag(n, place::USES_LR),
        uses_chroma_lr: flag(n, place::USES_CHROMA_LR),
        lr_unit_shift: natural(n, place::LR_UNIT_SHIFT),
        lr_uv_shift: natural(n, place::LR_UV_SHIFT),
    }
}
