//! Numbers of a memory, little-endian.
ghost use Rattle.std.specs.Prelude.{◌≡◌, ◌<◌, ◌≤◌, ◌^◌, ◌+◌, ◌/◌, ◌%◌, length, take, IfErr, IfOk, IfSome, IsFalse, IsTrue, OnErr, OnOk, Ok, Err};
ghost use Rattle.guest_memory.specs.Bytes.{bytes_from};
ghost use Rattle.guest_memory.specs.Words.{IsWidth, bytes_of, number_of, number_in, load_of, store_of, fetch_of};
ghost use Rattle.guest_memory.specs.Written.{KeepsUnwritable};

use crate::access::Access;
use crate::fault::MemFault;
use crate::memory::GuestMemory;
use abi_base::PAGE_SIZE;

impl GuestMemory {
    /// The number of the `n` bytes at an address, little-endian; `n` is 1, 2, 4 or 8. Each byte's page must be there
    /// with the right READ; else the fault names the first byte that fails. Every page stays as it is.
    #[inline]
    pub fn load(&mut self, at: u64, n: u32) -> Result<u64, MemFault>
        requires { IsWidth n }
        ensures exact { result ≡ load_of self.old at n }
        ensures small { IfOk result (λ v. v < 256 ^ n) }
        ensures same { self.new ≡ self.old }
    {
        match self.load_by_hint(at, n) {
            Some(v) => Ok(v),
            None => self.load_anywhere(Access::Read, at, n),
        }
    }

    /// The number of the `n` bytes at an address, little-endian, where they lie in one page, the page's hint leads to it and it may be
    /// read. `None` says nothing. A program's loads try it first, since no fault has to be handed back.
    #[inline(always)]
    pub fn load_by_hint(&self, at: u64, n: u32) -> Option<u64>
        requires { IsWidth n }
        ensures exact { IfSome result (λ v. load_of self.now at n ≡ Ok v) }
        ensures small { IfSome result (λ v. v < 256 ^ n) }
    {
        let run = self.hinted_run(Access::Read, at)?;
        if run.len() < n as usize {
            return None;
        }
        Some(number_in_run(run, n))
    }

    /// Writes the `n` lowest bytes of a number to an address, little-endian; `n` is 1, 2, 4 or 8. Each byte's page must
    /// be there with the right WRITE; else the fault names the first byte that fails, and nothing is written.
    #[inline]
    pub fn store(&mut self, at: u64, n: u32, v: u64) -> Result<(), MemFault>
        requires { IsWidth n }
        ensures ok { OnOk result (store_of self.old at n v ≡ Ok self.new) }
        ensures fault { IfErr result (λ fault. store_of self.old at n v ≡ Err fault) }
        ensures err { OnErr result (self.new ≡ self.old) }
        ensures unwritable { KeepsUnwritable self.old self.new }
    {
        if self.store_by_hint(at, n, v) {
            return Ok(());
        }
        self.store_anywhere(at, n, v)
    }

    /// Writes the `n` lowest bytes of a number to an address, where they lie in one page, the page's hint leads to it and
    /// it may be written. `false` says nothing but that all is as before. A program's stores try it first.
    #[inline(always)]
    pub fn store_by_hint(&mut self, at: u64, n: u32, v: u64) -> bool
        requires { IsWidth n }
        ensures ok { IsTrue result → store_of self.old at n v ≡ Ok self.new }
        ensures unwritable { KeepsUnwritable self.old self.new }
        ensures same { IsFalse result → self.new ≡ self.old }
    {
        let place = at % PAGE_SIZE;
        if place + u64::from(n) > PAGE_SIZE {
            return false;
        }
        self.pages
            .store_hinted(at / PAGE_SIZE, place as usize, n, v)
    }

    // Writes the `n` lowest bytes of a number wherever they lie, and notes the first one's page.
    #[cold]
    #[inline(never)]
    fn store_anywhere(&mut self, at: u64, n: u32, v: u64) -> Result<(), MemFault>
        requires { IsWidth n }
        ensures ok { OnOk result (store_of self.old at n v ≡ Ok self.new) }
        ensures fault { IfErr result (λ fault. store_of self.old at n v ≡ Err fault) }
        ensures err { OnErr result (self.new ≡ self.old) }
        ensures unwritable { KeepsUnwritable self.old self.new }
    {
        self.pages.note(at / PAGE_SIZE);
        let bytes = v.to_le_bytes();
        self.write_bytes(at, &bytes[..n as usize])
    }

    /// The word of the instruction at an address, little-endian. Each of its four bytes' pages must be there with the
    /// right EXEC; else the fault names the first byte that fails. Every page stays as it is.
    #[inline]
    pub fn fetch(&mut self, at: u64) -> Result<u32, MemFault>
        ensures exact { result ≡ fetch_of self.old at }
        ensures same { self.new ≡ self.old }
    {
        if let Some(run) = self.hinted_run(Access::Exec, at) {
            if run.len() >= 4 {
                return Ok(u32::from_le_bytes([run[0], run[1], run[2], run[3]]));
            }
        }
        let word = self.load_anywhere(Access::Exec, at, 4)?;
        Ok((word % 0x1_0000_0000) as u32)
    }

    // The number of bytes wherever they lie. It notes the first one's page.
    #[cold]
    #[inline(never)]
    fn load_anywhere(&mut self, access: Access, at: u64, n: u32) -> Result<u64, MemFault>
        requires { IsWidth n }
        ensures exact { result ≡ number_in (bytes_from access self.old at n) }
        ensures small { IfOk result (λ v. v < 256 ^ n) }
        ensures same { self.new ≡ self.old }
    {
        self.pages.note(at / PAGE_SIZE);
        self.load_over_pages(access, at, n)
    }

    // The number of bytes that may lie in two pages.
    fn load_over_pages(&self, access: Access, at: u64, n: u32) -> Result<u64, MemFault>
        requires { IsWidth n }
        ensures exact { result ≡ number_in (bytes_from access self.now at n) }
        ensures small { IfOk result (λ v. v < 256 ^ n) }
    {
        let mut bytes = [0; 8];
        self.check(access, at, n as usize)?;
        let run = &mut bytes[..n as usize];
        self.copy_out(access, at, run);
        Ok(number_in_run(run, n))
    }
}

// The number of the first `n` bytes.
#[inline(always)]
fn number_in_run(run: &[u8], n: u32) -> u64
    requires width { IsWidth n }
    requires len { n ≤ length run.now }
    ensures exact { result ≡ number_of (take n run.now) }
    ensures small { result < 256 ^ n }
{
    match n {
        1 => u64::from(run[0]),
        2 => u64::from(u16::from_le_bytes([run[0], run[1]])),
        4 => u64::from(u32::from_le_bytes([run[0], run[1], run[2], run[3]])),
        _ => u64::from_le_bytes([
            run[0], run[1], run[2], run[3], run[4], run[5], run[6], run[7],
        ]),
    }
}
