//! A prefix of addresses.

ghost use Rattle.std.specs.Prelude.{◌≡◌, ◌+◌, ◌-◌, ◌%◌, ◌^◌, ◌≤◌};

/// The addresses whose first `len` bits are those of `addr`.
#[derive(Clone, Copy, Debug, PartialEq, Eq, Hash)]
pub struct Prefix {
    /// The first address: the bits past the length are 0.
    pub addr: u32,
    /// The number of bits that count, 0 to 32.
    pub len: u8,
}

/// The number of addresses that share their first `len` bits.
pub(crate) fn addresses(len: u8) -> u64
    requires { len ≤ 32 }
    ensures { result ≡ 2 ^ (32 - len) }
{
    1 << (32 - len)
}

impl Prefix {
    /// The greatest of its addresses.
    pub fn last(&self) -> u32
        requires len_in { self.now.len ≤ 32 }
        requires clear { self.now.addr % 2 ^ (32 - self.now.len) ≡ 0 }
        ensures { result ≡ self.now.addr + (2 ^ (32 - self.now.len) - 1) }
    {
        self.addr + (addresses(self.len) - 1) as u32
    }
}
