//! The bits of the mask, the byte that a tile begins with.

pub const RAW: u8 = 1;

pub const BACKGROUND_SPECIFIED: u8 = 2;

pub const FOREGROUND_SPECIFIED: u8 = 4;

pub const ANY_SUBRECTS: u8 = 8;

pub const SUBRECTS_COLORED: u8 = 16;
