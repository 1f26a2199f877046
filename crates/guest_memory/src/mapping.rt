//! Which pages a memory has.
ghost use Rattle.std.specs.Prelude.{◌≡◌, ◌↔◌, ◌+◌, ◌*◌, ◌/◌, ◌^◌, ◌≤◌, IfErr, OnOk, OnErr, IfSome, IfNone, IsFalse};
ghost use Rattle.std.specs.FinMap as map;
ghost use Rattle.guest_memory.specs.Ranges.{IsPageAddress};
ghost use Rattle.guest_memory.specs.Mapping.{AreThere, NoneExecutable, AreMapped, AreUnmapped, AreProtected, MayMap, MapFails, ProtectFails, IsLowestGap, HasNoGap};
ghost use Rattle.guest_memory.specs.Changes.{without_pages};

use crate::fault::MemFault;
use crate::memory::GuestMemory;
use crate::page_map::{
    add_pages, count_pages, first_absent, first_page, has_executable, protect_pages, remove_pages,
};
use abi_base::{GUEST_BEGIN, GUEST_END, PAGE_LIMIT, PAGE_SIZE, Prot};
use std::alloc::Global;

// The number of the first page of the part where a mapping without a place of its own may lie.
const GAPS_BEGIN: u64 = 0x20_0000_0000 / PAGE_SIZE;

// The number of the first page after that part.
const GAPS_END: u64 = 0x3e_0000_0000 / PAGE_SIZE;

impl GuestMemory {
    /// Maps pages of zeros with these rights from a page's address on, in the guest's part of the address space.
    /// `Overlaps` names the first page that is there already. Only where there is none, `PageLimit` says that there
    /// would be more than 65,536 pages, and else `NoMemory` that the host has no memory left. A refused call changes
    /// nothing.
    pub fn map(&mut self, alloc: Global, at: u64, pages: u32, prot: Prot) -> Result<(), MemFault>
        requires page { IsPageAddress at }
        requires low { GUEST_BEGIN ≤ at }
        requires high { at + PAGE_SIZE * pages ≤ GUEST_END }
        ensures may { OnOk result (MayMap self.old (at / PAGE_SIZE) pages) }
        ensures ok { OnOk result (AreMapped self.old (at / PAGE_SIZE) pages prot self.new) }
        ensures fault { IfErr result (MapFails self.old (at / PAGE_SIZE) pages) }
        ensures err { OnErr result (self.new ≡ self.old) }
    {
        let first = at / PAGE_SIZE;
        let count = u64::from(pages);
        if let Some(taken) = first_page(&self.pages, first, count) {
            return Err(MemFault::Overlaps(taken * PAGE_SIZE));
        }
        if self.pages.len() as u64 + count > PAGE_LIMIT {
            return Err(MemFault::PageLimit);
        }
        if add_pages(&mut self.pages, alloc, first, count, prot).is_err() {
            remove_pages(&mut self.pages, first, count);
            return Err(MemFault::NoMemory);
        }
        Ok(())
    }

    /// Takes away the pages from a page's address on, as far as they are there.
    pub fn unmap(&mut self, at: u64, pages: u32)
        requires page { IsPageAddress at }
        requires high { at + PAGE_SIZE * pages ≤ 2 ^ 64 }
        ensures { AreUnmapped self.old (at / PAGE_SIZE) pages self.new }
    {
        remove_pages(&mut self.pages, at / PAGE_SIZE, u64::from(pages));
    }

    /// Gives the pages from a page's address on these rights. `NotMapped` names the first that isn't there, and then
    /// nothing is changed.
    pub fn protect(&mut self, at: u64, pages: u32, prot: Prot) -> Result<(), MemFault>
        requires page { IsPageAddress at }
        requires high { at + PAGE_SIZE * pages ≤ 2 ^ 64 }
        ensures there { OnOk result (AreThere self.old (at / PAGE_SIZE) pages) }
        ensures ok { OnOk result (AreProtected self.old (at / PAGE_SIZE) pages prot self.new) }
        ensures fault { IfErr result (ProtectFails self.old (at / PAGE_SIZE) pages) }
        ensures err { OnErr result (self.new ≡ self.old) }
    {
        let first = at / PAGE_SIZE;
        let count = u64::from(pages);
        if let Some(absent) = first_absent(&self.pages, first, count) {
            return Err(MemFault::NotMapped(absent * PAGE_SIZE));
        }
        protect_pages(&mut self.pages, first, count, prot);
        Ok(())
    }

    /// The lowest address from 0x2000000000 on at which this many pages can be mapped, below 0x3e00000000. `None`
    /// exactly where there is none.
    pub fn find_gap(&self, pages: u32) -> Option<u64>
        ensures some { IfSome result (IsLowestGap self.now pages) }
        ensures none { IfNone result (HasNoGap self.now pages) }
    {
        let count = u64::from(pages);
        let mut first = GAPS_BEGIN;
        while first + count <= GAPS_END {
            match first_page(&self.pages, first, count) {
                Some(number) => first = number + 1,
                None => return Some(first * PAGE_SIZE),
            }
        }
        None
    }

    /// Whether all the pages from a page's address on are there. `NotMapped` names the first that isn't.
    pub fn check_mapped(&self, at: u64, pages: u64) -> Result<(), MemFault>
        requires page { IsPageAddress at }
        requires few { pages ≤ 2 ^ 52 }
        ensures ok { OnOk result (AreThere self.now (at / PAGE_SIZE) pages) }
        ensures fault { IfErr result (ProtectFails self.now (at / PAGE_SIZE) pages) }
    {
        match first_absent(&self.pages, at / PAGE_SIZE, pages) {
            Some(absent) => Err(MemFault::NotMapped(absent * PAGE_SIZE)),
            None => Ok(()),
        }
    }

    /// Whether some page from that of an address on can be executed. It takes a step for each that is there.
    pub fn has_executable(&self, at: u64, pages: u64) -> bool
        requires { pages ≤ 2 ^ 52 }
        ensures { IsFalse result ↔ NoneExecutable self.now (at / PAGE_SIZE) pages }
    {
        has_executable(&self.pages, at / PAGE_SIZE, pages)
    }

    /// How many pages the memory has: at most 65,536.
    pub fn len(&self) -> usize
        ensures is { result ≡ map.len self.now }
        ensures few { result ≤ PAGE_LIMIT }
    {
        self.pages.len()
    }

    /// How many of the pages from a page's address on are there.
    pub fn mapped_within(&self, at: u64, pages: u32) -> u64
        requires page { IsPageAddress at }
        requires high { at + PAGE_SIZE * pages ≤ 2 ^ 64 }
        ensures { result + map.len (without_pages self.now (at / PAGE_SIZE) pages) ≡ map.len self.now }
    {
        count_pages(&self.pages, at / PAGE_SIZE, u64::from(pages))
    }
}
