// Where each number of the record stands.
pub const OBU_TYPE: usize = 0;

pub const EXTENSION_FLAG: usize = 1;

pub const HAS_SIZE_FIELD: usize = 2;

pub const TEMPORAL_ID: usize = 3;

pub const SPATIAL_ID: usize = 4;

pub const SEQ_PROFILE: usize = 5;

pub const STILL_PICTURE: usize = 6;

pub const REDUCED_STILL_PICTURE_HEADER: usize = 7;

pub const TIMING_INFO_PRESENT_FLAG: usize = 8;

pub const NUM_UNITS_IN_DISPLAY_TICK: usize = 9;

pub const TIME_SCALE: usize = 10;

pub const EQUAL_PICTURE_INTERVAL: usize = 11;

pub const NUM_TICKS_PER_PICTURE_MINUS_1: usize = 12;

pub const DECODER_MODEL_INFO_PRESENT_FLAG: usize = 13;

pub const BUFFER_DELAY_LENGTH_MINUS_1: usize = 14;

pub const NUM_UNITS_IN_DECODING_TICK: usize = 15;

pub const BUFFER_REMOVAL_TIME_LENGTH_MINUS_1: usize = 16;

pub const FRAME_PRESENTATION_TIME_LENGTH_MINUS_1: usize = 17;

pub const INITIAL_DISPLAY_DELAY_PRESENT_FLAG: usize = 18;

pub const OPERATING_POINTS_CNT_MINUS_1: usize = 19;

pub const OPERATING_POINTS: usize = 20;

pub const FRAME_WIDTH_BITS_MINUS_1: usize = 308;

pub const FRAME_HEIGHT_BITS_MINUS_1: usize = 309;

pub const MAX_FRAME_WIDTH_MINUS_1: usize = 310;

pub const MAX_FRAME_HEIGHT_MINUS_1: usize = 311;

pub const FRAME_ID_NUMBERS_PRESENT_FLAG: usize = 312;

pub const DELTA_FRAME_ID_LENGTH_MINUS_2: usize = 313;

pub const ADDITIONAL_FRAME_ID_LENGTH_MINUS_1: usize = 314;

pub const USE_128X128_SUPERBLOCK: usize = 315;

pub const ENABLE_FILTER_INTRA: usize = 316;

pub const ENABLE_INTRA_EDGE_FILTER: usize = 317;

pub const ENABLE_INTERINTRA_COMPOUND: usize = 318;

pub const ENABLE_MASKED_COMPOUND: usize = 319;

pub const ENABLE_WARPED_MOTION: usize = 320;

pub const ENABLE_DUAL_FILTER: usize = 321;

pub const ENABLE_ORDER_HINT: usize = 322;

pub const ENABLE_JNT_COMP: usize = 323;

pub const ENABLE_REF_FRAME_MVS: usize = 324;

pub const SEQ_CHOOSE_SCREEN_CONTENT_TOOLS: usize = 325;

pub const SEQ_FORCE_SCREEN_CONTENT_TOOLS: usize = 326;

pub const SEQ_CHOOSE_INTEGER_MV: usize = 327;

pub const SEQ_FORCE_INTEGER_MV: usize = 328;

pub const ORDER_HINT_BITS_MINUS_1: usize = 329;

pub const ORDER_HINT_BITS: usize = 330;

pub const ENABLE_SUPERRES: usize = 331;

pub const ENABLE_CDEF: usize = 332;

pub const ENABLE_RESTORATION: usize = 333;

pub const HIGH_BITDEPTH: usize = 334;

pub const TWELVE_BIT: usize = 335;

pub const MONO_CHROME: usize = 336;

pub const COLOR_DESCRIPTION_PRESENT_FLAG: usize = 337;

pub const COLOR_PRIMARIES: usize = 338;

pub const TRANSFER_CHARACTERISTICS: usize = 339;

pub const MATRIX_COEFFICIENTS: usize = 340;

pub const COLOR_RANGE: usize = 341;

pub const SUBSAMPLING_X: usize = 342;

pub const SUBSAMPLING_Y: usize = 343;

pub const CHROMA_SAMPLE_POSITION: usize = 344;

pub const SEPARATE_UV_DELTA_Q: usize = 345;

pub const NUM_PLANES: usize = 346;

pub const FILM_GRAIN_PARAMS_PRESENT: usize = 347;

// How many there are.
pub const NUMBERS: usize = 348;

// Of an operating point: how many numbers it has, and how far behind its first, idc, each stands.
pub const POINT_NUMBERS: usize = 9;

pub const SEQ_LEVEL_IDX: usize = 1;

pub const SEQ_TIER: usize = 2;

pub const DECODER_MODEL_PRESENT_FOR_THIS_OP: usize = 3;

pub const DECODER_BUFFER_DELAY: usize = 4;

pub const ENCODER_BUFFER_DELAY: usize = 5;

pub const LOW_DELAY_MODE_FLAG: usize = 6;

pub const INITIAL_DISPLAY_DELAY_PRESENT_FOR_THIS_OP: usize = 7;

pub const INITIAL_DISPLAY_DELAY_MINUS_1: usize = 8;
