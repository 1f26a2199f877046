//! The pages of a memory by their numbers, each of which is found in one look wherever a hint leads to it.
ghost use Rattle.std.specs.Prelude.{◌≡◌, ◌≤◌, ◌+◌, ◌++◌, IfOk, IfSome, IsSome, IsTrue, IsFalse, OnOk, OnErr, None, Some, nat_le, option_copied, length};
ghost use Rattle.std.specs.FinMap as map;
ghost use Rattle.std.specs.Borrow.{sem};
ghost use Rattle.abi_base.specs.declared.address_space.TheConstants.{PAGE_SIZE};
ghost use Rattle.maps.specs.Maps.{least_key};
ghost use Rattle.page_table.specs.Borrowing.{LendsPage};
ghost use Rattle.std.specs.Vec.{vec_capacity};
ghost use Rattle.page_table.specs.Table.{IsIndexed, IsStored, IsTable, content};
ghost use Rattle.page_table.specs.Numbers.{IsWidth};

use crate::mapped_page::MappedPage;
use crate::slots::{SharedSlots, Slot, copy_slots, page_at, share_slots};
use maps::NumMap;
use std::alloc::{AllocError, Global};
use std::marker::Model;

// How many hints there are at least, from the first page on.
const FEWEST_HINTS: usize = 1024;

/// The pages of a memory by their numbers, which contracts see as a finite map. The pages stand in slots, in no order, and
/// the index has each number's slot, in the order of the numbers. A hint is where a page may be: it is a guess that is
/// checked wherever it is used, so that nothing has to hold of it.
///
/// After a fork two tables have the same slots, which neither changes; they come first in the numbering. A page of these becomes a
/// table's own as it is first looked for to be changed, or by a hint. There is always room for all pages among a table's own slots, so
/// that this takes no memory. Hints lead to own slots alone. A table lets go of the shared slots once none of its pages is in them, and
/// they take memory until the last table that has them does: those too of pages that each has in a slot of its own, or no more.
#[derive(Drop)]
pub struct PageTable {
    index: NumMap<usize>,
    shared: SharedSlots,
    slots: Vec<Slot>,
    hints: Vec<u32>,
    mask: u64,
}

impl Model for PageTable {
    ghost use Rattle.std.specs.Coded.{coded_ℕ};
    ghost use Rattle.std.specs.FinMap as map;
    ghost use Rattle.page_table.specs.Page.{Pages, page_code};

    ghost Value = { Pages };

    ghost coded = { map.code coded_ℕ page_code };

    ghost use Rattle.std.specs.Prelude.{◌++◌};
    ghost use Rattle.std.specs.Vec.{vec_capacity};
    ghost use Rattle.page_table.specs.Table.{content, IsTable};

    ghost view = { λ t. content t.index (t.shared ++ t.slots.items) };

    ghost invariant = { λ t. IsTable t.index t.shared t.slots.items (vec_capacity t.slots) };
}

// Which of the hints is that of a page. Numbers that lie close together have hints of their own. A program's code, data, mappings and stack lie
// 64 GiB apart or nearly so; the upper bits keep the hints of their pages apart.
#[inline(always)]
fn place_of_hint(number: u64, mask: u64) -> usize {
    ((number ^ (number >> 17)) & mask) as usize
}

// The slot that the hint of a page's number names, if there are hints.
#[inline(always)]
fn hinted_slot(hints: &[u32], mask: u64, number: u64) -> Option<usize> {
    let place = place_of_hint(number, mask);
    if place < hints.len() {
        Some(hints[place] as usize)
    } else {
        None
    }
}

// Makes the hint of a page's number name this slot.
fn set_hint(hints: &mut [u32], mask: u64, number: u64, slot: usize) {
    let place = place_of_hint(number, mask);
    if place < hints.len() {
        hints[place] = (slot % 0x1_0000_0000) as u32;
    }
}

impl PageTable {
    /// No page. It takes no memory before the first insertion.
    pub fn new(alloc: Global) -> Self
        ensures { result ≡ map.empty }
    {
        PageTable {
            index: NumMap::new(alloc),
            shared: SharedSlots::none(),
            slots: Vec::new(alloc),
            hints: Vec::new(alloc),
            mask: 0,
        }
    }

    /// How many pages there are.
    pub fn len(&self) -> usize
        ensures { result ≡ map.len self.now }
    {
        self.index.len()
    }

    /// Whether there is a page of this number.
    pub fn contains(&self, number: u64) -> bool
        ensures { result ≡ map.contains_key self.now number }
    {
        self.index.contains(number)
    }

    /// The least number of a page that is at least `number`, if there is one.
    pub fn first_from(&self, number: u64) -> Option<u64>
        ensures { result ≡ least_key (λ q _. nat_le number q) self.now }
    {
        self.index.first_from(number)
    }

    /// The page of this number, where its hint leads to it. `None` says nothing.
    #[inline(always)]
    pub fn hinted(&self, number: u64) -> Option<&MappedPage>
        ensures { IfSome result (λ page. map.get self.now number ≡ Some page.now) }
    {
        let Some(place) = hinted_slot(&self.hints, self.mask, number) else {
            return None;
        };
        if place >= self.slots.len() {
            return None;
        }
        let slot = &self.slots[place];
        if slot.number == number {
            Some(&slot.page)
        } else {
            None
        }
    }

    /// The page of this number, if there is one.
    #[inline]
    pub fn get(&self, number: u64) -> Option<&MappedPage>
        ensures value { option_copied result ≡ map.get self.now number }
    {
        match self.hinted(number) {
            Some(page) => Some(page),
            None => self.looked_up(number),
        }
    }

    // The page of this number, if there is one, by the index alone.
    #[cold]
    #[inline(never)]
    fn looked_up(&self, number: u64) -> Option<&MappedPage>
        ensures { option_copied result ≡ map.get self.now number }
    {
        match self.index.get(number) {
            Some(place) => Some(page_at(self.shared.as_slice(), &self.slots, *place)),
            None => None,
        }
    }

    /// Makes the hint of this number lead to its page, if there is one.
    pub fn note(&mut self, number: u64)
        ensures { self.new ≡ self.old }
    {
        if self.index.contains(number) {
            let place = own_slot(
                &mut self.index,
                self.shared.as_slice(),
                &mut self.slots,
                number,
            );
            set_hint(&mut self.hints, self.mask, number, place);
            self.let_go();
        }
    }

    // Makes the pages that are shared still this table's own too, if they are fewer than those that are, so that all can be shared
    // anew.
    fn gather(&mut self)
        ensures { self.new ≡ self.old }
    {
        if self.slots.len() > self.index.len() / 2 {
            own_all(&mut self.index, self.shared.as_slice(), &mut self.slots);
        }
        self.let_go();
    }

    // Lets go of the shared slots once no page of the table is in them.
    fn let_go(&mut self)
        ensures { self.new ≡ self.old }
    {
        if !number_own(&mut self.index, self.shared.as_slice(), &self.slots) {
            return;
        }
        self.shared = SharedSlots::none();
    }

    /// The page of this number, which is there, to be changed in place.
    pub fn get_mut(&mut self, number: u64) -> &mut MappedPage
        requires { IsSome (map.get self.old number) }
        ensures* writes_back { sem 𝓛 (LendsPage self.entry number result) }
        ensures value { Some result.now ≡ map.get self.old number }
    {
        let place = own_slot(
            &mut self.index,
            self.shared.as_slice(),
            &mut self.slots,
            number,
        );
        let slot = &mut self.slots[place];
        &mut slot.page
    }

    /// Writes the `n` lowest bytes of a number into the page of this number from a place in it on, where its hint leads to
    /// it and it may be written. `false` says nothing but that all is as before.
    #[inline(always)]
    pub fn store_hinted(&mut self, number: u64, place: usize, n: u32, v: u64) -> bool
        requires width { IsWidth n }
        requires fits { place + n ≤ PAGE_SIZE }
        ensures stored { IsTrue result → IsStored self.old number place n v self.new }
        ensures same { IsFalse result → self.new ≡ self.old }
    {
        let Some(at) = hinted_slot(&self.hints, self.mask, number) else {
            return false;
        };
        if at >= self.slots.len() {
            return false;
        }
        let slot = &mut self.slots[at];
        if slot.number != number {
            return false;
        }
        if !slot.page.prot().write {
            return false;
        }
        slot.page.store(place, n, v);
        true
    }

    /// Adds a page under a number that has none. Where memory runs out, nothing changes.
    pub fn insert(&mut self, alloc: Global, number: u64, page: MappedPage) -> Result<(), AllocError>
        requires { map.get self.old number ≡ None }
        ensures ok { OnOk result (self.new ≡ map.insert self.old number page) }
        ensures err { OnErr result (self.new ≡ self.old) }
    {
        self.widen(alloc)?;
        let place = self.slots.len();
        insert_slot(
            &mut self.index,
            self.shared.as_slice(),
            &mut self.slots,
            number,
            page,
        )?;
        set_hint(&mut self.hints, self.mask, number, place);
        Ok(())
    }

    // Makes more hints where there are no more than pages.
    fn widen(&mut self, alloc: Global) -> Result<(), AllocError>
        ensures { self.new ≡ self.old }
    {
        if self.hints.len() > self.slots.len() {
            return Ok(());
        }
        let count = self.hints.len().saturating_mul(2).max(FEWEST_HINTS);
        self.hints = vec![in alloc; 0; count]?;
        self.mask = (count as u64).wrapping_sub(1);
        Ok(())
    }

    /// Takes the page of this number away, if there is one.
    pub fn remove(&mut self, number: u64)
        ensures new { self.new ≡ map.remove self.old number }
    {
        remove_slot(
            &mut self.index,
            self.shared.as_slice(),
            &mut self.slots,
            number,
        );
    }

    /// An equal table. It has the same slots until one of the two changes a page, so that little more than the index is copied. Where
    /// pages are shared still since an earlier fork, these or those that are this table's own are copied, whichever are fewer. Where
    /// memory runs out, this table is as before.
    pub fn fork(&mut self, alloc: Global) -> Result<Self, AllocError>
        ensures made { IfOk result (λ made. made ≡ self.old) }
        ensures same { self.new ≡ self.old }
    {
        self.gather();
        let count = self.index.len();
        let index = copy_index(alloc, &self.index)?;
        let hints = vec![in alloc; 0; self.hints.len()]?;
        share_slots(alloc, &mut self.shared, &mut self.slots, count)?;
        let slots = copy_slots(alloc, &self.slots, count)?;
        Ok(PageTable {
            index,
            shared: self.shared.share()?,
            slots,
            hints,
            mask: self.mask,
        })
    }
}

// Adds a slot with a page under a number that has none. Where memory runs out, nothing changes. There is room for all pages
// afterwards.
fn insert_slot(
    index: &mut NumMap<usize>,
    shared: &[Slot],
    slots: &mut Vec<Slot>,
    number: u64,
    page: MappedPage,
) -> Result<(), AllocError>
    requires absent { map.get index.old number ≡ None }
    requires table { IsTable index.old shared.now slots.old.items (vec_capacity slots.old) }
    ensures table { IsTable index.new shared.now slots.new.items (vec_capacity slots.new) }
    ensures ok { OnOk result (content index.new (shared.now ++ slots.new.items) ≡ map.insert (content index.old (shared.now ++ slots.old.items)) number page) }
    ensures err { OnErr result (content index.new (shared.now ++ slots.new.items) ≡ content index.old (shared.now ++ slots.old.items)) }
{
    let own = slots.len();
    slots.reserve(index.len() - own + 1)?;
    slots.push_reserved(Slot { number, page });
    if index.insert(number, shared.len() + own).is_err() {
        slots.pop();
        return Err(AllocError);
    }
    Ok(())
}

// Makes the page of a number, which has one, the table's own, if it is shared, and answers the place of its slot among the own ones.
fn own_slot(index: &mut NumMap<usize>, shared: &[Slot], slots: &mut Vec<Slot>, number: u64) -> usize
    requires there { IsSome (map.get index.old number) }
    requires table { IsTable index.old shared.now slots.old.items (vec_capacity slots.old) }
    ensures table { IsTable index.new shared.now slots.new.items (vec_capacity slots.new) }
    ensures content { content index.new (shared.now ++ slots.new.items) ≡ content index.old (shared.now ++ slots.old.items) }
    ensures place { map.get index.new number ≡ Some (length shared.now + result) }
{
    let place = *index.get(number).unwrap();
    if place >= shared.len() {
        return place - shared.len();
    }
    // There are fewer than all pages, which is what there is room for.
    let own = slots.len();
    slots.push_reserved(shared[place].copy());
    index.replace(number, shared.len() + own);
    own
}

// Makes all pages the table's own.
fn own_all(index: &mut NumMap<usize>, shared: &[Slot], slots: &mut Vec<Slot>)
    requires { IsTable index.old shared.now slots.old.items (vec_capacity slots.old) }
    ensures table { IsTable index.new shared.now slots.new.items (vec_capacity slots.new) }
    ensures content { content index.new (shared.now ++ slots.new.items) ≡ content index.old (shared.now ++ slots.old.items) }
{
    for slot in shared {
        if index.contains(slot.number) {
            own_slot(index, shared, slots, slot.number);
        }
    }
}

// Numbers a table's own slots from 0 on, if each of its pages has one, so that it needs the shared ones no more. It answers whether it
// did.
fn number_own(index: &mut NumMap<usize>, shared: &[Slot], slots: &[Slot]) -> bool
    requires { IsIndexed (length shared.now) index.old (shared.now ++ slots.now) }
    ensures indexed { IsTrue result → IsIndexed 0 index.new slots.now }
    ensures content { IsTrue result → content index.new slots.now ≡ content index.old (shared.now ++ slots.now) }
    ensures count { map.len index.new ≡ map.len index.old }
    ensures same { IsFalse result → index.new ≡ index.old }
{
    if shared.is_empty() || slots.len() < index.len() {
        return false;
    }
    for place in 0..slots.len() {
        index.replace(slots[place].number, place);
    }
    true
}

// Takes the slot of a number away, if it has one. If it is the table's own, the last of these takes its place.
fn remove_slot(index: &mut NumMap<usize>, shared: &[Slot], slots: &mut Vec<Slot>, number: u64)
    requires { IsTable index.old shared.now slots.old.items (vec_capacity slots.old) }
    ensures table { IsTable index.new shared.now slots.new.items (vec_capacity slots.new) }
    ensures content { content index.new (shared.now ++ slots.new.items) ≡ map.remove (content index.old (shared.now ++ slots.old.items)) number }
{
    let Some(place) = index.remove(number) else {
        return;
    };
    if place < shared.len() {
        return;
    }
    let own = place - shared.len();
    let Some(last) = slots.pop() else {
        return;
    };
    if own < slots.len() {
        index.replace(last.number, place);
        slots[own] = last;
    }
}

// An equal index.
fn copy_index(alloc: Global, index: &NumMap<usize>) -> Result<NumMap<usize>, AllocError>
    ensures { IfOk result (λ made. made ≡ index.now) }
{
    let mut made = NumMap::new(alloc);
    let mut next = index.first_from(0);
    while let Some(number) = next {
        made.insert(number, *index.get(number).unwrap())?;
        next = index.first_after(number);
    }
    Ok(made)
}
