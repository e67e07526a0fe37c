// The elements that a refusal can name, as document 01 numbers them. (They are numbers, and no enum: C is handed them, and the tables name them so.)
pub const OBU_TYPE: u8 = 1;

pub const TEMPORAL_ID: u8 = 2;

pub const SPATIAL_ID: u8 = 3;

pub const SEQ_PROFILE: u8 = 4;

pub const REDUCED_STILL_PICTURE_HEADER: u8 = 5;

pub const INITIAL_DISPLAY_DELAY_PRESENT_FLAG: u8 = 6;

pub const OPERATING_POINTS_CNT_MINUS_1: u8 = 7;

pub const OPERATING_POINT_IDC: u8 = 8;

pub const SEQ_LEVEL_IDX: u8 = 9;

pub const DECODER_MODEL_PRESENT_FOR_THIS_OP: u8 = 10;

pub const INITIAL_DISPLAY_DELAY_PRESENT_FOR_THIS_OP: u8 = 11;

pub const NUM_TICKS_PER_PICTURE_MINUS_1: u8 = 12;

pub const DECODER_MODEL_INFO_PRESENT_FLAG: u8 = 13;

pub const BUFFER_DELAY_LENGTH_MINUS_1: u8 = 14;

pub const BUFFER_REMOVAL_TIME_LENGTH_MINUS_1: u8 = 15;

pub const FRAME_PRESENTATION_TIME_LENGTH_MINUS_1: u8 = 16;

pub const SEQ_TIER: u8 = 17;

pub const DECODER_BUFFER_DELAY: u8 = 18;

pub const ENCODER_BUFFER_DELAY: u8 = 19;

pub const INITIAL_DISPLAY_DELAY_MINUS_1: u8 = 20;

pub const FRAME_WIDTH_BITS_MINUS_1: u8 = 21;

pub const FRAME_HEIGHT_BITS_MINUS_1: u8 = 22;

pub const FRAME_ID_NUMBERS_PRESENT_FLAG: u8 = 23;

pub const DELTA_FRAME_ID_LENGTH_MINUS_2: u8 = 24;

pub const ADDITIONAL_FRAME_ID_LENGTH_MINUS_1: u8 = 25;

pub const ENABLE_INTERINTRA_COMPOUND: u8 = 26;

pub const ENABLE_MASKED_COMPOUND: u8 = 27;

pub const ENABLE_WARPED_MOTION: u8 = 28;

pub const ENABLE_DUAL_FILTER: u8 = 29;

pub const ENABLE_ORDER_HINT: u8 = 30;

pub const ENABLE_JNT_COMP: u8 = 31;

pub const ENABLE_REF_FRAME_MVS: u8 = 32;

pub const SEQ_FORCE_SCREEN_CONTENT_TOOLS: u8 = 33;

pub const SEQ_FORCE_INTEGER_MV: u8 = 34;

pub const ORDER_HINT_BITS_MINUS_1: u8 = 35;

pub const ORDER_HINT_BITS: u8 = 36;

pub const TWELVE_BIT: u8 = 37;

pub const MONO_CHROME: u8 = 38;

pub const COLOR_PRIMARIES: u8 = 39;

pub const TRANSFER_CHARACTERISTICS: u8 = 40;

pub const MATRIX_COEFFICIENTS: u8 = 41;

pub const COLOR_RANGE: u8 = 42;

pub const SUBSAMPLING_X: u8 = 43;

pub const SUBSAMPLING_Y: u8 = 44;

pub const CHROMA_SAMPLE_POSITION: u8 = 45;

pub const SEPARATE_UV_DELTA_Q: u8 = 46;

pub const NUM_PLANES: u8 = 47;

pub const BASE_Q_IDX: u8 = 51;

pub const DELTA_Q_Y_DC: u8 = 52;

pub const DIFF_UV_DELTA: u8 = 53;

pub const DELTA_Q_U_DC: u8 = 54;

pub const DELTA_Q_U_AC: u8 = 55;

pub const DELTA_Q_V_DC: u8 = 56;

pub const DELTA_Q_V_AC: u8 = 57;

pub const QM_Y: u8 = 58;

pub const QM_U: u8 = 59;

pub const QM_V: u8 = 60;

pub const SEGMENTATION_UPDATE_MAP: u8 = 61;

pub const SEGMENTATION_TEMPORAL_UPDATE: u8 = 62;

pub const SEGMENTATION_UPDATE_DATA: u8 = 63;

pub const FEATURE_ENABLED: u8 = 64;

pub const FEATURE_DATA: u8 = 65;

pub const LOOP_FILTER_LEVEL: u8 = 66;

pub const LOOP_FILTER_REF_DELTAS: u8 = 67;

pub const LOOP_FILTER_MODE_DELTAS: u8 = 68;

pub const LOOP_FILTER_SHARPNESS: u8 = 69;

pub const CDEF_BITS: u8 = 70;

pub const CDEF_Y_PRI_STRENGTH: u8 = 71;

pub const CDEF_Y_SEC_STRENGTH: u8 = 72;

pub const CDEF_UV_PRI_STRENGTH: u8 = 73;

pub const CDEF_UV_SEC_STRENGTH: u8 = 74;

pub const CDEF_DAMPING: u8 = 75;

pub const FRAME_RESTORATION_TYPE: u8 = 76;

pub const USES_LR: u8 = 77;

pub const USES_CHROMA_LR: u8 = 78;

pub const LR_UNIT_SHIFT: u8 = 79;

pub const LR_UV_SHIFT: u8 = 80;
