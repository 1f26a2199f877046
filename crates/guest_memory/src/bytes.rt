//! Bytes of a memory in a row.
ghost use Rattle.std.specs.Prelude.{◌≡◌, ◌≤◌, ◌+◌, ◌/◌, ◌%◌, length, IfErr, IfOk, IfSome, IsOk, IsSome, MatchResult, OnErr, OnOk, Ok, Err, Some};
ghost use Rattle.std.specs.FinMap.{get};
ghost use Rattle.guest_memory.specs.declared.access.Access.TheVariants as access;
ghost use Rattle.guest_memory.specs.Bytes.{bytes_at, bytes_from, run_at, run_in};
ghost use Rattle.guest_memory.specs.Written.{KeepsUnwritable, set_bytes, write_of};

use crate::access::Access;
use crate::fault::MemFault;
use crate::memory::GuestMemory;
use abi_base::PAGE_SIZE;
use page_table::MappedPage;

impl GuestMemory {
    /// Whether this may be done with the bytes from an address on, else the first fault. Addresses go modulo 2^64.
    pub fn check(&self, access: Access, at: u64, count: usize) -> Result<(), MemFault>
        ensures ok { OnOk result (IsOk (bytes_from access self.now at count)) }
        ensures fault { IfErr result (λ fault. bytes_from access self.now at count ≡ Err fault) }
    {
        let mut done = 0;
        while done < count {
            let run = self.run(access, at.wrapping_add(done as u64))?;
            done += run.len().min(count - done);
        }
        Ok(())
    }

    /// The bytes from an address to its page's end.
    #[inline]
    pub(crate) fn run(&self, access: Access, at: u64) -> Result<&[u8], MemFault>
        ensures run { MatchResult result (λ run. run_at access self.now at ≡ Ok run.now) (λ fault. run_at access self.now at ≡ Err fault) }
        ensures len { IfOk result (λ run. length run.now + at % PAGE_SIZE ≡ PAGE_SIZE) }
    {
        match self.pages.get(at / PAGE_SIZE) {
            Some(page) => run_in_page(page, access, at),
            None => Err(MemFault::NotMapped(at)),
        }
    }

    /// The bytes from an address to its page's end, where the page's hint leads to it and this may be done with them.
    /// `None` says nothing.
    #[inline(always)]
    pub(crate) fn hinted_run(&self, access: Access, at: u64) -> Option<&[u8]>
        ensures run { IfSome result (λ run. run_at access self.now at ≡ Ok run.now) }
        ensures len { IfSome result (λ run. length run.now + at % PAGE_SIZE ≡ PAGE_SIZE) }
    {
        match self.pages.hinted(at / PAGE_SIZE) {
            Some(page) => run_in_page(page, access, at).ok(),
            None => None,
        }
    }

    /// Fills `out` with the bytes from an address on, which can be had.
    pub(crate) fn copy_out(&self, access: Access, at: u64, out: &mut [u8])
        requires { IsOk (bytes_from access self.now at (length out.old)) }
        ensures { bytes_from access self.now at (length out.old) ≡ Ok out.new }
    {
        let mut done = 0;
        while done < out.len() {
            let run = self.run(access, at.wrapping_add(done as u64)).unwrap();
            let part = run.len().min(out.len() - done);
            out[done..done + part].copy_from_slice(&run[..part]);
            done += part;
        }
    }

    /// Writes bytes from an address on, which may be written.
    pub(crate) fn copy_in(&mut self, at: u64, bytes: &[u8])
        requires { IsOk (bytes_from access.Write self.old at (length bytes.now)) }
        ensures { self.new ≡ set_bytes self.old at bytes.now }
    {
        let mut done = 0;
        while done < bytes.len() {
            let to = at.wrapping_add(done as u64);
            let left = (PAGE_SIZE - to % PAGE_SIZE) as usize;
            let part = left.min(bytes.len() - done);
            self.write_in_page(to, &bytes[done..done + part]);
            done += part;
        }
    }

    // Writes bytes from an address on that lie in one page, which is there.
    fn write_in_page(&mut self, at: u64, bytes: &[u8])
        requires there { IsSome (get self.old (at / PAGE_SIZE)) }
        requires fits { at % PAGE_SIZE + length bytes.now ≤ PAGE_SIZE }
        ensures { self.new ≡ set_bytes self.old at bytes.now }
    {
        let place = (at % PAGE_SIZE) as usize;
        self.pages.get_mut(at / PAGE_SIZE).write(place, bytes);
    }

    /// Fills `out` with the bytes from an address on. Addresses go modulo 2^64. Each byte's page must be there with
    /// the right READ; else the fault names the first byte that fails, and `out` stays as it was.
    pub fn read_bytes(&self, at: u64, out: &mut [u8]) -> Result<(), MemFault>
        ensures ok { OnOk result (bytes_at self.now at (length out.old) ≡ Ok out.new) }
        ensures fault { IfErr result (λ fault. bytes_at self.now at (length out.old) ≡ Err fault) }
        ensures err { OnErr result (out.new ≡ out.old) }
    {
        self.check(Access::Read, at, out.len())?;
        self.copy_out(Access::Read, at, out);
        Ok(())
    }

    /// Writes bytes from an address on. Addresses go modulo 2^64. Each byte's page must be there with the right WRITE;
    /// else the fault names the first byte that fails, and nothing is written.
    pub fn write_bytes(&mut self, at: u64, bytes: &[u8]) -> Result<(), MemFault>
        ensures ok { OnOk result (write_of self.old at bytes.now ≡ Ok self.new) }
        ensures fault { IfErr result (λ fault. write_of self.old at bytes.now ≡ Err fault) }
        ensures err { OnErr result (self.new ≡ self.old) }
        ensures unwritable { KeepsUnwritable self.old self.new }
    {
        self.check(Access::Write, at, bytes.len())?;
        self.copy_in(at, bytes);
        Ok(())
    }
}

// The bytes from an address in a page to the page's end.
#[inline(always)]
fn run_in_page(page: &MappedPage, access: Access, at: u64) -> Result<&[u8], MemFault>
    ensures run { MatchResult result (λ run. run_in access at (Some page.now) ≡ Ok run.now) (λ fault. run_in access at (Some page.now) ≡ Err fault) }
    ensures len { IfOk result (λ run. length run.now + at % PAGE_SIZE ≡ PAGE_SIZE) }
{
    if access.is_allowed_by(page.prot()) {
        Ok(page.bytes_from((at % PAGE_SIZE) as usize))
    } else {
        Err(MemFault::NoRight(at))
    }
}
