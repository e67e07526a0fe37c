// Each part's context, from the record of the sequence header and the frame's own values.
ghost use Rattle.std.specs.Prelude.{◌≡◌};
ghost use Rattle.contexts.specs.Contexts.{quantization_context, segmentation_context, loop_filter_context, cdef_context, lr_context};

use cdef::record::CdefContext;
use loop_filter::record::LoopFilterContext;
use quantization::record::QuantizationContext;
use restoration::record::LoopRestorationContext;
use segmentation::record::SegmentationContext;
use sequence::record::*;

pub fn quantization_context(header: SequenceHeaderObu) -> QuantizationContext
    ensures { result ≡ quantization_context header }
{
    let color = header.color_config;
    QuantizationContext {
        planes: plane_count(color.num_planes == 1),
        separate_uv_delta_q: color.separate_uv_delta_q,
    }
}

// It takes nothing from the sequence header.
pub fn segmentation_context(primary_ref_frame: u32) -> SegmentationContext
    ensures { result ≡ segmentation_context primary_ref_frame }
{
    SegmentationContext { primary_ref_frame }
}

pub fn loop_filter_context(
    header: SequenceHeaderObu,
    coded_lossless: bool,
    allow_intrabc: bool,
) -> LoopFilterContext
    ensures { result ≡ loop_filter_context header coded_lossless allow_intrabc }
{
    LoopFilterContext {
        coded_lossless,
        allow_intrabc,
        planes: plane_count(header.color_config.num_planes == 1),
    }
}

pub fn cdef_context(
    header: SequenceHeaderObu,
    coded_lossless: bool,
    allow_intrabc: bool,
) -> CdefContext
    ensures { result ≡ cdef_context header coded_lossless allow_intrabc }
{
    CdefContext {
        coded_lossless,
        allow_intrabc,
        enable_cdef: header.enable_cdef,
        planes: plane_count(header.color_config.num_planes == 1),
    }
}

pub fn lr_context(
    header: SequenceHeaderObu,
    all_lossless: bool,
    allow_intrabc: bool,
) -> LoopRestorationContext
    ensures { result ≡ lr_context header all_lossless allow_intrabc }
{
    let color = header.color_config;
    LoopRestorationContext {
        all_lossless,
        allow_intrabc,
        enable_restoration: header.enable_restoration,
        planes: plane_count(color.num_planes == 1),
        use_128x128_superblock: header.use_128x128_superblock,
        subsampling_x: color.subsampling_x,
        subsampling_y: color.subsampling_y,
    }
}
