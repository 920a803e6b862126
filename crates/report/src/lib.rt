// The lines that the program prints, on a page.
#![tactic(auto)]

ghost use Rattle.std.specs.Prelude.{◌≡◌, ℕ, ◌+◌, ◌%◌, ◌^◌, ◌<◌, ◌≤◌, List, [], ◌∷◌, ◌++◌, length};
ghost use Rattle.report.specs.Lines.{digit, decimal, hex8};
ghost use Rattle.report.specs.Lines.{stop_line, ctl_line, register_line, register_lines, maps_line, lines_of, refused_of, ones_of};

use arrayvec::ArrayString;
use itoa::Buffer;
use state::{Core, Regs, State};
use std::marker::Model;

// A text of at most 1024 bytes, which lie in the value itself: there is no heap, so that the program can't run out of memory.
#[derive(Drop)]
pub struct Page {
    string: ArrayString<1024>,
}

impl Model for Page {
    ghost Value = { List ℕ };

    ghost view = { λ p. p.string.bytes };
}

// A number below 16 as one hexadecimal digit. `char::from_digit` gives small letters, and those in an Option.
fn glyph(n: u8) -> char
    requires { n < 16 }
    ensures { result ≡ digit n }
{
    char::from(if n < 10 { b'0' + n } else { b'A' + (n - 10) })
}

// Each writer asks that there is room for what it appends, which differs from one to the next, and so is no fact of the type.
impl Page {
    pub fn new() -> Page
        ensures { result ≡ [] }
    {
        Page {
            string: ArrayString::new(),
        }
    }

    pub fn as_bytes(&self) -> &[u8]
        ensures text { result.now ≡ self.now }
        ensures room { length result.now ≤ 1024 }
    {
        self.string.as_str().as_bytes()
    }

    fn push(&mut self, c: char)
        requires { (length self.old < 1024) × (c < 128) }
        ensures { self.new ≡ self.old ++ c ∷ [] }
    {
        self.string.push(c);
    }

    fn text(&mut self, s: &str)
        requires { length self.old + length s.now ≤ 1024 }
        ensures { self.new ≡ self.old ++ s.now }
    {
        self.string.push_str(s);
    }

    // A number in decimal, of at most 20 digits.
    #[tactic(auto, using(crate::proofs::Digits::same_decimal))]
    fn decimal(&mut self, n: usize)
        requires { length self.old + 20 ≤ 1024 }
        ensures { self.new ≡ self.old ++ decimal n }
    {
        let mut digits = Buffer::new();
        self.text(digits.format(n));
    }

    // Eight hexadecimal digits, two for each byte.
    // No `write!` of `{:08X}`: what it ensures is of an Ok alone, and a report can't fail (the clauses of `report` and `refusal`).
    #[tactic(auto, using(crate::proofs::Digits::hex_bytes), unfolding(crate::specs::Lines::hex2))]
    fn hex(&mut self, n: u32)
        requires { length self.old + 8 ≤ 1024 }
        ensures { self.new ≡ self.old ++ hex8 n }
    {
        for b in n.to_be_bytes() {
            self.push(glyph(b / 16));
            self.push(glyph(b % 16));
        }
    }

    // A text and a number: a usize, which any of the program's fits, and which `as` makes of a u32, for want of a From.
    #[tactic(auto, using(crate::proofs::Room::room, crate::proofs::Digits::decimal_short))]
    fn labelled(&mut self, s: &str, n: usize)
        requires { length self.old + length s.now + 20 ≤ 1024 }
        ensures text { self.new ≡ self.old ++ (s.now ++ decimal n) }
        ensures room { length self.new ≤ length self.old + length s.now + 20 }
    {
        self.text(s);
        self.decimal(n);
    }

    // A text, eight hexadecimal digits, and the end of the line.
    #[tactic(auto, using(crate::proofs::Room::room, crate::proofs::Digits::hex8_long))]
    fn ended(&mut self, s: &str, n: u32)
        requires { length self.old + length s.now + 9 ≤ 1024 }
        ensures text { self.new ≡ self.old ++ (s.now ++ hex8 n ++ 10 ∷ []) }
        ensures room { length self.new ≤ length self.old + length s.now + 9 }
    {
        self.text(s);
        self.hex(n);
        self.push('\n');
    }

    // The first line.
    #[tactic(auto, using(std::proofs::Common::append_assoc), unfolding(crate::specs::Lines::stop_line))]
    fn stop_line(&mut self, reason: u32, steps: u32, pc: u32)
        requires { length self.old + 65 ≤ 1024 }
        ensures text { self.new ≡ self.old ++ stop_line reason steps pc }
        ensures room { length self.new ≤ length self.old + 65 }
    {
        self.labelled("stop ", reason as usize);
        self.labelled(" steps ", steps as usize);
        self.ended(" pc ", pc);
    }

    // The second line.
    #[tactic(auto, using(std::proofs::Common::append_assoc), unfolding(crate::specs::Lines::ctl_line))]
    fn ctl_line(&mut self, c: &Core)
        requires { length self.old + 76 ≤ 1024 }
        ensures text { self.new ≡ self.old ++ ctl_line c.now.status c.now.estatus c.now.bstatus c.now.ienable }
        ensures room { length self.new ≤ length self.old + 76 }
    {
        self.labelled("ctl ", c.status as usize);
        self.labelled(" ", c.estatus as usize);
        self.labelled(" ", c.bstatus as usize);
        self.ended(" ", c.ienable);
    }

    // The line of register i, where it is not 0. That i is small is for `room`: there are many registers.
    #[tactic(auto, using(crate::proofs::Room::room, std::proofs::Common::append_assoc, crate::proofs::Digits::decimal_two, crate::proofs::Digits::hex8_long), unfolding(crate::specs::Lines::register_line))]
    fn register_line(&mut self, i: usize, v: u32)
        requires { (length self.old + 31 ≤ 1024) × (i < 100) }
        ensures text { self.new ≡ self.old ++ register_line i v }
        ensures room { length self.new ≤ length self.old + 13 }
    {
        if v != 0 {
            self.labelled("r", i);
            self.ended(" ", v);
        }
    }

    // The lines of the registers: at most 32 times 13 bytes, and the last line asks room for any number, 18 more.
    #[tactic(auto, using(std::proofs::Common::append_assoc), unfolding(crate::specs::Lines::register_lines))]
    fn register_lines(&mut self, regs: &Regs)
        requires { length self.old + 434 ≤ 1024 }
        ensures text { self.new ≡ self.old ++ register_lines 32 regs.now.r }
        ensures room { length self.new ≤ length self.old + 416 }
    {
        for (i, v) in regs.r.iter().enumerate() {
            self.register_line(i, *v);
        }
    }

    // The last line.
    #[tactic(auto, using(std::proofs::Common::append_assoc), unfolding(crate::specs::Lines::maps_line))]
    fn maps_line(&mut self, read: usize, written: usize)
        requires { length self.old + 55 ≤ 1024 }
        ensures { self.new ≡ self.old ++ maps_line read written }
    {
        self.labelled("read ", read);
        self.labelled(" written ", written);
        self.push('\n');
    }
}

// The lines of an accepted call. `read` and `written` are the set bits of the two maps. The reason is a number, and so is a refusal's below: the
// promise is the lines of every number.
#[tactic(auto, using(std::proofs::Common::append_assoc), unfolding(crate::specs::Lines::lines_of))]
pub fn report(reason: u32, steps: u32, s: &State, read: usize, written: usize) -> Page
    ensures { result ≡ lines_of reason steps s.now read written }
{
    let mut page = Page::new();
    page.stop_line(reason, steps, s.core.pc);
    page.ctl_line(&s.core);
    page.register_lines(&s.regs);
    page.maps_line(read, written);
    page
}

// The line of a call that is not accepted.
#[tactic(auto, using(std::proofs::Common::append_assoc), unfolding(crate::specs::Lines::refused_of))]
pub fn refusal(number: u32) -> Page
    ensures { result ≡ refused_of number }
{
    let mut page = Page::new();
    page.labelled("refused ", number as usize);
    page.push('\n');
    page
}

// The set bits of a map. A slice may have more of them than a usize holds, so modulo 2 ^ 64: exact below 2 ^ 61 bytes (ones_exact).
#[tactic(auto, using(crate::proofs::Bits::ones_more), unfolding(crate::specs::Lines::ones_of))]
pub fn ones(map: &[u8]) -> usize
    ensures { result ≡ ones_of map.now % 2 ^ 64 }
{
    let mut n: usize = 0;
    for b in map {
        n = n.wrapping_add(b.count_ones() as usize);
    }
    n
}
