//! Which pages around an address are code: such as can be executed and not written.
ghost use Rattle.std.specs.Prelude.{◌≤◌};

use abi_base::PAGE_SIZE;
use guest_memory::{Access, GuestMemory};

// How many pages of code are looked for below a page, at most.
const MOST_BELOW: u64 = 512;

// How many pages of code in a row have slots together, at most.
const MOST_PAGES: u64 = 1024;

/// Whether a page is code.
pub fn is_code(mem: &GuestMemory, page: u64) -> bool {
    let at = page.wrapping_mul(PAGE_SIZE);
    mem.check(Access::Exec, at, 1).is_ok() && mem.check(Access::Write, at, 1).is_err()
}

/// The first of the pages of code in a row up to this one, but none before the lowest.
pub fn first_of(mem: &GuestMemory, page: u64, lowest: u64) -> u64 {
    let mut first = page;
    for _ in 0..MOST_BELOW {
        let before = first.wrapping_sub(1);
        if first <= lowest || !is_code(mem, before) {
            break;
        }
        first = before;
    }
    first
}

/// How many pages of code in a row there are from this one on, up to the end and as far as they have slots together.
pub fn count_from(mem: &GuestMemory, first: u64, end: u64) -> u64
    ensures { result ≤ 1024 }
{
    for count in 0..MOST_PAGES {
        let page = first.wrapping_add(count);
        if page >= end || !is_code(mem, page) {
            return count;
        }
    }
    MOST_PAGES
}
