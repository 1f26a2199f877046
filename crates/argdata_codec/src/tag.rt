//! The first byte of each kind of value.

pub const BINARY: u8 = 1;

pub const BOOL: u8 = 2;

pub const FD: u8 = 3;

pub const INT: u8 = 5;

pub const MAP: u8 = 6;

pub const SEQ: u8 = 7;

pub const STR: u8 = 8;
