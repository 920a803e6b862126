// Marks in the two lent maps. Each function but `wipe` asks that the maps that it is lent have a bit for each of its bytes.
#![tactic(auto)]

ghost use Rattle.std.specs.Prelude.{◌≡◌, ◌+◌, ◌-◌, ◌*◌, ◌/◌, ◌%◌, ◌^◌, ◌<◌, ◌≤◌, length, replicate};
ghost use Rattle.trace.specs.Access.{reads, stores, each};
ghost use Rattle.trace.specs.Maps.{bit, set_bit, mark};
ghost use Rattle.maps.specs.Pair.{pair, Room, none_set};
ghost use Rattle.maps.specs.Both.{HasRoom, marked};

use std::ops::Range;

pub fn bit_of(map: &[u8], k: usize) -> u8
    requires { k / 8 < length map.now }
    ensures { result ≡ bit map.now k }
{
    (map[k / 8] >> (k % 8)) % 2
}

#[tactic(auto, using(crate::proofs::Spans::set_again, crate::proofs::Spans::power_fits))]
fn set_bit(map: &mut [u8], k: usize)
    requires { k / 8 < length map.old }
    ensures { map.new ≡ set_bit map.old k }
{
    // A bit that is set is not stored again: the next mark loads the same byte, and would wait for the store.
    if bit_of(map, k) != 0 {
        return;
    }
    map[k / 8] |= 1u8 << (k % 8);
}

// The two lent maps. Each method asks for room at its addresses, which is no fact of the maps alone, and so not of the type.
#[derive(Drop)]
pub struct Marks<'a> {
    pub first: &'a mut [u8],
    pub written: &'a mut [u8],
}

impl<'a> Marks<'a> {
    // A method of its own: of a field that a `&mut self` lends, a proof would not know the elements.
    fn bit_written(&self, k: usize) -> u8
        requires { k / 8 < length self.now.written.now }
        ensures { result ≡ bit self.now.written.now k }
    {
        bit_of(self.written, k)
    }

    // The byte k is read: that leaves no mark where it was stored to before.
    #[tactic(auto, using(crate::proofs::Spans::read_written, crate::proofs::Spans::read_new))]
    fn read_byte(&mut self, k: usize)
        requires { HasRoom self.old (k + 1) }
        ensures { self.new ≡ marked (each reads k 1) self.old }
    {
        if self.bit_written(k) == 1 {
            return;
        }
        set_bit(self.first, k);
    }

    // The N bytes from k on are read.
    #[tactic(auto, using(crate::proofs::Spans::mark_more))]
    pub fn read<const N: usize>(&mut self, k: usize)
        requires { HasRoom self.old (k + N) }
        ensures { self.new ≡ marked (each reads k N) self.old }
    {
        for i in k..k + N {
            self.read_byte(i);
        }
    }

    // The N bytes from k on are stored to.
    #[tactic(auto, using(crate::proofs::Spans::mark_more))]
    pub fn store<const N: usize>(&mut self, k: usize)
        requires { HasRoom self.old (k + N) }
        ensures { self.new ≡ marked (each stores k N) self.old }
    {
        for i in k..k + N {
            set_bit(self.written, i);
        }
    }
}

// Every bit of a map to 0.
pub fn wipe(map: &mut [u8])
    ensures { map.new ≡ replicate (length map.old) 0 }
{
    map.fill(0);
}

// Whether no bit of the addresses of a range is set.
pub fn none(map: &[u8], mut range: Range<usize>) -> bool
    requires { (range.start ≤ range.end) × (range.end ≤ 8 * length map.now) }
    ensures { result ≡ none_set map.now range.start (range.end - range.start) }
{
    range.all(|k| bit_of(map, k) == 0)
}
