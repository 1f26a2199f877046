//! A page of a guest's memory.
ghost use Rattle.std.specs.Prelude.{◌≡◌, ◌≤◌, ◌+◌, length, take, drop, ◌++◌};
ghost use Rattle.page_table.specs.Numbers.{IsWidth, bytes_of};
ghost use Rattle.page_table.specs.Page.{zero_page, with_prot};

use abi_base::{PAGE_SIZE, Prot};
use std::marker::Model;

const LENGTH: usize = PAGE_SIZE as usize;

/// A page's bytes and rights. The bytes are an array in the page itself, so that finding them takes one look at the page and no look
/// at a length.
#[derive(Drop)]
pub struct MappedPage {
    bytes: [u8; LENGTH],
    prot: Prot,
}

impl Model for MappedPage {
    ghost use Rattle.std.specs.Prelude.{◌≡◌, length};
    ghost use Rattle.abi_base.specs.declared.address_space.TheConstants.{PAGE_SIZE};
    ghost use Rattle.page_table.specs.Page.{Page, page_code};

    ghost Value = { Page };

    ghost coded = { page_code };

    ghost view = { λ p. record { bytes = p.bytes; prot = p.prot } };

    ghost invariant = { λ p. length p.bytes ≡ PAGE_SIZE };
}

impl MappedPage {
    /// A page of zeros.
    pub fn new(prot: Prot) -> Self
        ensures { result ≡ zero_page prot }
    {
        MappedPage {
            bytes: [0; LENGTH],
            prot,
        }
    }

    /// An equal page.
    pub fn copy(&self) -> Self
        ensures { result ≡ self.now }
    {
        MappedPage {
            bytes: self.bytes,
            prot: self.prot,
        }
    }

    /// Gives the page other rights.
    pub fn set_prot(&mut self, prot: Prot)
        ensures { self.new ≡ with_prot prot self.old }
    {
        self.prot = prot;
    }

    /// Makes the page one of zeros with these rights.
    pub fn reset(&mut self, prot: Prot)
        ensures { self.new ≡ zero_page prot }
    {
        self.bytes = [0; LENGTH];
        self.prot = prot;
    }

    /// The page's rights.
    #[inline(always)]
    pub fn prot(&self) -> &Prot
        ensures { result.now ≡ self.now.prot }
    {
        &self.prot
    }

    /// The bytes from a place in the page to its end.
    #[inline(always)]
    pub fn bytes_from(&self, place: usize) -> &[u8]
        requires { place ≤ PAGE_SIZE }
        ensures bytes { result.now ≡ drop place self.now.bytes }
        ensures len { length result.now + place ≡ PAGE_SIZE }
    {
        &self.bytes[place..]
    }

    /// Writes bytes from a place in the page on, which end in the page.
    pub fn write(&mut self, place: usize, bytes: &[u8])
        requires { place + length bytes.now ≤ PAGE_SIZE }
        ensures { self.new ≡ record self.old { bytes = take place self.old.bytes ++ (bytes.now ++ drop (place + length bytes.now) self.old.bytes) } }
    {
        self.bytes[place..place + bytes.len()].copy_from_slice(bytes);
    }

    /// Writes the `n` lowest bytes of a number from a place in the page on, which end in the page; `n` is 1, 2, 4 or 8.
    #[inline(always)]
    pub fn store(&mut self, place: usize, n: u32, v: u64)
        requires width { IsWidth n }
        requires fits { place + n ≤ PAGE_SIZE }
        ensures { self.new ≡ record self.old { bytes = take place self.old.bytes ++ (bytes_of n v ++ drop (place + n) self.old.bytes) } }
    {
        put_number(&mut self.bytes[place..place + n as usize], v);
    }
}

// Fills a slice with the lowest bytes of a number, the lowest first. It has 1, 2, 4 or 8 of them.
#[inline(always)]
fn put_number(part: &mut [u8], v: u64)
    requires { IsWidth (length part.old) }
    ensures { part.new ≡ bytes_of (length part.old) v }
{
    let bytes = v.to_le_bytes();
    match part.len() {
        1 => part[0] = bytes[0],
        2 => {
            part[0] = bytes[0];
            part[1] = bytes[1];
        }
        4 => {
            part[0] = bytes[0];
            part[1] = bytes[1];
            part[2] = bytes[2];
            part[3] = bytes[3];
        }
        _ => {
            part[0] = bytes[0];
            part[1] = bytes[1];
            part[2] = bytes[2];
            part[3] = bytes[3];
            part[4] = bytes[4];
            part[5] = bytes[5];
            part[6] = bytes[6];
            part[7] = bytes[7];
        }
    }
}
