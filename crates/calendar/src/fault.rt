// The numbers of refusals by name (01, "Numbers we answer with", and the requests of 02). They are numbers, and no enum: a lent watch may hold any byte
// for one, and `watch::step` hands it on.

// tables: faults

pub const FIRST_HEADER: u8 = 1;

pub const LINE: u8 = 2;

pub const VALUE: u8 = 3;

pub const DECLARED_SIZE: u8 = 4;

pub const TOTALS: u8 = 5;

pub const BYTES_LEFT: u8 = 6;

pub const UNKNOWN_KIND: u8 = 7;

pub const ORDER: u8 = 8;

pub const RECORD_SIZE: u8 = 9;

pub const RECORD_TIMES: u8 = 10;

pub const TOO_MANY: u8 = 11;

pub const TARGET: u8 = 12;

pub const POINTS_INSIDE: u8 = 13;

pub const POINTS_AT_OTHER: u8 = 14;

pub const TOO_FEW: u8 = 15;

pub const BEYOND: u8 = 16;

pub const UNFINISHED: u8 = 17;

pub const ROOM: u8 = 18;

pub const NO_RECORD: u8 = 19;

pub const OUTSIDE: u8 = 20;

pub const MALFORMED: u8 = 21;

pub const NO_FIELD: u8 = 22;

pub const LISTING_LIMIT: u8 = 23;

pub const TOO_MANY_POINTERS: u8 = 24;

pub const WINDOW: u8 = 25;

pub const UNLIKE: u8 = 26;

pub const OUT_OF_TIME: u8 = 27;

pub const RESULT_LIMIT: u8 = 28;

pub const PROFILE: u8 = 29;

pub const UTH_SHORT: u8 = 30;

pub const UTH_SEGMENTS: u8 = 31;

pub const UTH_GRID: u8 = 32;

pub const UTH_BLOCKS: u8 = 33;

pub const UTH_CUT: u8 = 34;

pub const UTH_LEFT: u8 = 35;

pub const REPORT_FULL: u8 = 36;

pub const RECORD_LENGTH: u8 = 37;

pub const RECORD_COUNTS: u8 = 38;

pub const PART_LENGTHS: u8 = 39;

// tables: end
