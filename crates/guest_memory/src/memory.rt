//! The memory of a process.
ghost use Rattle.std.specs.Prelude.{◌≡◌, IfOk};
ghost use Rattle.std.specs.FinMap as map;
ghost use Rattle.guest_memory.specs.Limits.{KeepsLimits};

use page_table::PageTable;
use std::alloc::{AllocError, Global};
use std::marker::Model;

/// The memory of a process: pages of 4096 bytes by their numbers, each with its rights. Guest addresses run from
/// 0x10000 up to 0x4000000000, and there are at most 65,536 pages.
#[derive(Drop)]
pub struct GuestMemory {
    pub(crate) pages: PageTable,
}

impl Model for GuestMemory {
    ghost use Rattle.std.specs.Coded.{coded_ℕ};
    ghost use Rattle.std.specs.FinMap as map;
    ghost use Rattle.guest_memory.specs.Page.{Pages, page_code};
    ghost use Rattle.guest_memory.specs.Limits.{KeepsLimits};

    ghost Value = { Pages };

    ghost coded = { map.code coded_ℕ page_code };

    ghost view = { λ m. m.pages };

    ghost invariant = { λ m. KeepsLimits m.pages };
}

impl GuestMemory {
    /// A memory with no page.
    pub fn new(alloc: Global) -> Self
        ensures { result ≡ map.empty }
    {
        GuestMemory {
            pages: PageTable::new(alloc),
        }
    }

    /// An equal memory, for a child of the process that has this one. `Err` where memory ran out.
    pub fn fork(&mut self, alloc: Global) -> Result<Self, AllocError>
        ensures made { IfOk result (λ made. made ≡ self.old) }
        ensures same { self.new ≡ self.old }
    {
        let pages = self.pages.fork(alloc)?;
        Ok(GuestMemory { pages })
    }

    /// What every memory keeps. It does nothing.
    pub fn keeps_limits(&self)
        ensures { KeepsLimits self.now }
    {
        let _pages = &self.pages;
    }
}
