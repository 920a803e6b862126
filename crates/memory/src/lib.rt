// Little-endian numbers in lent memory. Each function asks that its bytes are within the memory: a fact of an address and a width, which the
// type of a slice does not know, and so no invariant.
#![tactic(auto)]

ghost use Rattle.std.specs.Prelude.{◌≡◌, ◌+◌, ◌≤◌, length};
ghost use Rattle.trace.specs.Access.{number, put};

// The number in the N bytes at `at`.
#[tactic(auto, using(crate::proofs::Numbers::number_of))]
pub fn load<const N: usize>(mem: &[u8], at: usize) -> u32
    requires width { N ≤ 4 }
    requires within { at + N ≤ length mem.now }
    ensures { result ≡ number mem.now at N }
{
    let mut bytes = [0u8; 4];
    bytes[..N].copy_from_slice(&mem[at..at + N]);
    u32::from_le_bytes(bytes)
}

// The number v into the N bytes at `at`, without what does not fit there.
#[tactic(auto, using(crate::proofs::Numbers::put_part))]
pub fn store<const N: usize>(mem: &mut [u8], at: usize, v: u32)
    requires width { N ≤ 4 }
    requires within { at + N ≤ length mem.old }
    ensures { mem.new ≡ put mem.old at N v }
{
    mem[at..at + N].copy_from_slice(&v.to_le_bytes()[..N]);
}
