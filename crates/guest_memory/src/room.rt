//! Room for a mapping: the pages that its range lacks are added before it is made, so that making it takes no memory.
ghost use Rattle.std.specs.Prelude.{◌≡◌, ◌≢◌, ℕ, ◌+◌, ◌*◌, ◌/◌, ◌^◌, ◌<◌, ◌≤◌, [], Some, IfOk, OnOk, OnErr};
ghost use Rattle.std.specs.FinMap as map;
ghost use Rattle.guest_memory.specs.Ranges.{IsPageAddress};
ghost use Rattle.guest_memory.specs.Mapping.{AreThere, AreMapped};
ghost use Rattle.guest_memory.specs.Changes.{without_pages};
ghost use Rattle.guest_memory.specs.Room.{without_each, or_added, AreAdded, AreRoom};

use crate::memory::GuestMemory;
use abi_base::{GUEST_BEGIN, GUEST_END, PAGE_LIMIT, PAGE_SIZE, Prot};
use page_table::{MappedPage, PageTable};
use std::alloc::{AllocError, Global};
use std::marker::Model;

// The rights of a page that is room, until its mapping is made.
const NO_RIGHTS: Prot = Prot {
    read: false,
    write: false,
    exec: false,
};

/// The pages that were added to a memory as room for a mapping. Contracts see their numbers.
#[derive(Drop)]
pub struct Room {
    numbers: Vec<u64>,
}

impl Model for Room {
    ghost use Rattle.std.specs.Prelude.{ℕ, List};
    ghost use Rattle.std.specs.Coded.{coded_list, coded_ℕ};

    ghost Value = { List ℕ };

    ghost coded = { coded_list coded_ℕ };

    ghost view = { λ r. r.numbers.items };
}

impl Room {
    /// No page. It takes no memory.
    pub fn none(alloc: Global) -> Room
        ensures { result ≡ [] }
    {
        Room {
            numbers: Vec::new(alloc),
        }
    }
}

impl GuestMemory {
    /// Makes room for a mapping of pages from a page's address on, in the guest's part of the address space: adds those that
    /// aren't there, with no right. Where memory runs out, nothing changes.
    pub fn make_room(&mut self, alloc: Global, at: u64, pages: u32) -> Result<Room, AllocError>
        requires page { IsPageAddress at }
        requires low { GUEST_BEGIN ≤ at }
        requires high { at + PAGE_SIZE * pages ≤ GUEST_END }
        requires few { map.len (without_pages self.old (at / PAGE_SIZE) pages) + pages ≤ PAGE_LIMIT }
        ensures room { IfOk result (λ room. AreRoom room (at / PAGE_SIZE) pages self.new) }
        ensures without { IfOk result (λ room. without_each room self.new ≡ self.old) }
        ensures err { OnErr result (self.new ≡ self.old) }
    {
        let numbers = fill_pages(&mut self.pages, alloc, at / PAGE_SIZE, u64::from(pages))?;
        Ok(Room { numbers })
    }

    /// Maps pages of zeros with these rights from a page's address on, for which room was made, in place of the pages that
    /// were there before it.
    pub fn map_fixed(&mut self, room: Room, at: u64, pages: u32, prot: Prot)
        requires page { IsPageAddress at }
        requires low { GUEST_BEGIN ≤ at }
        requires high { at + PAGE_SIZE * pages ≤ GUEST_END }
        requires few { map.len (without_pages (without_each room self.old) (at / PAGE_SIZE) pages) + pages ≤ PAGE_LIMIT }
        requires room { AreRoom room (at / PAGE_SIZE) pages self.old }
        ensures { AreMapped (without_each room self.old) (at / PAGE_SIZE) pages prot self.new }
    {
        let _made = room;
        reset_pages(&mut self.pages, at / PAGE_SIZE, u64::from(pages), prot);
    }

    /// Takes the pages that were added as room away again.
    pub fn remove_room(&mut self, room: Room)
        ensures { self.new ≡ without_each room self.old }
    {
        remove_each(&mut self.pages, &room.numbers);
    }
}

// Puts a page at each number of the range that has none, and answers these numbers. Where memory runs out, nothing changes.
fn fill_pages(
    pages: &mut PageTable,
    alloc: Global,
    first: u64,
    count: u64,
) -> Result<Vec<u64>, AllocError>
    requires { first + count < 2 ^ 64 }
    ensures pages { OnOk result (AreAdded pages.old first count pages.new) }
    ensures added { IfOk result (λ added. without_each added.items pages.new ≡ pages.old) }
    ensures err { OnErr result (pages.new ≡ pages.old) }
{
    let mut added = Vec::new(alloc);
    if add_pages_listed(pages, &mut added, first, count).is_err() {
        remove_each(pages, &added);
        return Err(AllocError);
    }
    Ok(added)
}

// Puts a page of zeros at each number of the range that has none, and the numbers of these pages into a list, which is
// empty before. Where memory runs out, some may be there, and the list names them too.
fn add_pages_listed(
    pages: &mut PageTable,
    added: &mut Vec<u64>,
    first: u64,
    count: u64,
) -> Result<(), AllocError>
    requires fits { first + count < 2 ^ 64 }
    requires none { added.old.items ≡ [] }
    ensures pages { OnOk result (AreAdded pages.old first count pages.new) }
    ensures added { without_each added.new.items pages.new ≡ pages.old }
{
    for index in 0..count {
        add_page_listed(pages, added, first + index)?;
    }
    Ok(())
}

// Puts a page of zeros at this number if none is there, and then the number at the end of the list.
fn add_page_listed(
    pages: &mut PageTable,
    added: &mut Vec<u64>,
    number: u64,
) -> Result<(), AllocError>
    ensures page { OnOk result (map.get pages.new number ≡ Some (or_added (map.get pages.old number))) }
    ensures others { OnOk result ((q : ℕ) → q ≢ number → map.get pages.new q ≡ map.get pages.old q) }
    ensures added { without_each added.new.items pages.new ≡ without_each added.old.items pages.old }
{
    if pages.contains(number) {
        return Ok(());
    }
    let alloc = *added.allocator();
    let page = MappedPage::new(NO_RIGHTS);
    // The number goes first, so that there is never a page that the list doesn't name.
    added.push(number)?;
    pages.insert(alloc, number, page)?;
    Ok(())
}

// Takes away the pages of these numbers.
fn remove_each(pages: &mut PageTable, numbers: &[u64])
    ensures { pages.new ≡ without_each numbers.now pages.old }
{
    for number in numbers {
        pages.remove(*number);
    }
}

// Makes each page of the range one of zeros with these rights. Each is there, so no memory is taken.
fn reset_pages(pages: &mut PageTable, first: u64, count: u64, prot: Prot)
    requires fits { first + count < 2 ^ 64 }
    requires there { AreThere pages.old first count }
    ensures { AreMapped pages.old first count prot pages.new }
{
    for index in 0..count {
        pages.get_mut(first + index).reset(prot);
    }
}
