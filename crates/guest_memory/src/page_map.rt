//! Ranges of pages in a map of pages by number: the `count` pages from the number `first` on.
ghost use Rattle.std.specs.Prelude.{◌≡◌, ◌↔◌, ◌+◌, ◌^◌, ◌<◌, ◌≤◌, None, IsFalse, IsSome, OnOk, OnErr, MatchOption};
ghost use Rattle.std.specs.FinMap.{get, len};
ghost use Rattle.guest_memory.specs.Ranges.{IsFirstNumber};
ghost use Rattle.guest_memory.specs.Mapping.{AreFree, AreThere, NoneExecutable, AreMapped, AreUnmapped, AreProtected, AreSameOutside};
ghost use Rattle.guest_memory.specs.Changes.{without_pages};

use abi_base::Prot;
use page_table::{MappedPage, PageTable};
use std::alloc::{AllocError, Global};

/// The lowest page of the range that is there.
pub fn first_page(pages: &PageTable, first: u64, count: u64) -> Option<u64>
    requires { first + count < 2 ^ 64 }
    ensures { MatchOption result (AreFree pages.now first count) (IsFirstNumber (λ q. IsSome (get pages.now q)) first count) }
{
    let number = pages.first_from(first)?;
    if number < first + count {
        Some(number)
    } else {
        None
    }
}

/// The lowest page of the range that isn't there.
pub fn first_absent(pages: &PageTable, first: u64, count: u64) -> Option<u64>
    requires { first + count < 2 ^ 64 }
    ensures { MatchOption result (AreThere pages.now first count) (IsFirstNumber (λ q. get pages.now q ≡ None) first count) }
{
    for index in 0..count {
        if !pages.contains(first + index) {
            return Some(first + index);
        }
    }
    None
}

/// How many pages of the range are there.
pub fn count_pages(pages: &PageTable, first: u64, count: u64) -> u64
    requires { first + count < 2 ^ 64 }
    ensures { result + len (without_pages pages.now first count) ≡ len pages.now }
{
    let end = first + count;
    let mut found = 0;
    let mut from = first;
    while let Some(number) = first_page(pages, from, end - from) {
        found += 1;
        from = number + 1;
    }
    found
}

/// Whether some page of the range can be executed.
pub fn has_executable(pages: &PageTable, first: u64, count: u64) -> bool
    requires { first + count < 2 ^ 64 }
    ensures { IsFalse result ↔ NoneExecutable pages.now first count }
{
    let end = first + count;
    let mut from = first;
    while let Some(number) = first_page(pages, from, end - from) {
        if pages.get(number).unwrap().prot().exec {
            return true;
        }
        from = number + 1;
    }
    false
}

/// Puts a page of zeros at each number of the range, which has none. Where memory runs out, some may be there.
pub fn add_pages(
    pages: &mut PageTable,
    alloc: Global,
    first: u64,
    count: u64,
    prot: Prot,
) -> Result<(), AllocError>
    requires fits { first + count < 2 ^ 64 }
    requires free { AreFree pages.old first count }
    ensures ok { OnOk result (AreMapped pages.old first count prot pages.new) }
    ensures err { OnErr result (AreSameOutside pages.old first count pages.new) }
{
    for index in 0..count {
        pages.insert(alloc, first + index, MappedPage::new(prot))?;
    }
    Ok(())
}

/// Takes away the pages of the range, as far as they are there.
pub fn remove_pages(pages: &mut PageTable, first: u64, count: u64)
    requires { first + count < 2 ^ 64 }
    ensures { AreUnmapped pages.old first count pages.new }
{
    while let Some(number) = first_page(pages, first, count) {
        pages.remove(number);
    }
}

/// Gives each page of the range these rights. Each is there.
pub fn protect_pages(pages: &mut PageTable, first: u64, count: u64, prot: Prot)
    requires fits { first + count < 2 ^ 64 }
    requires there { AreThere pages.old first count }
    ensures { AreProtected pages.old first count prot pages.new }
{
    for index in 0..count {
        pages.get_mut(first + index).set_prot(prot);
    }
}
