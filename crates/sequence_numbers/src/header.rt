// The OBU header from its five numbers.
ghost use Rattle.std.specs.Prelude.{◌≡◌, [], ◌∷◌};
ghost use Rattle.sequence_numbers.specs.Groups.{header_of};

use obu::header::ObuHeader;

pub fn obu_header(
    obu_type: u32,
    extension_flag: u32,
    has_size_field: u32,
    temporal_id: u32,
    spatial_id: u32,
) -> ObuHeader
    ensures { result ≡ header_of (obu_type ∷ extension_flag ∷ has_size_field ∷ temporal_id ∷ spatial_id ∷ []) }
{
    ObuHeader {
        obu_type,
        extension_flag: extension_flag != 0,
        has_size_field: has_size_field != 0,
        temporal_id,
        spatial_id,
    }
}
