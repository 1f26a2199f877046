//! The memory that a guest may have.

/// How many bytes a page has.
pub const PAGE_SIZE: u64 = 4096;

/// The address of the first page that a guest may have.
pub const GUEST_BEGIN: u64 = 0x1_0000;

/// The address behind the last page that a guest may have.
pub const GUEST_END: u64 = 0x40_0000_0000;

/// The most pages that a guest may have.
pub const PAGE_LIMIT: u64 = 65_536;

/// Each instruction's address is a multiple of this.
pub const INSTRUCTION_ALIGNMENT: u64 = 4;
