// What a step may do to the state: where it goes on, exceptions, the ways back, control registers. No memory and no map in it.
#![tactic(auto)]

ghost use Rattle.std.specs.Prelude.{◌≡◌};
ghost use Rattle.rules.specs.Rules.{above as above_of, ipending, interrupted as interrupted_of, next_pc, next as next_of, only as only_of, writes as writes_of};
ghost use Rattle.rules.specs.Rules.{exception as exception_of, breaks as breaks_of, erets, brets, control as control_of, set_control};

use state::{Change, Core, Regs, Settings};

// ---- rules 1 and 2

pub fn above(c: Core) -> bool
    ensures { result ≡ above_of c }
{
    (1 < c.status) | (1 < c.estatus) | (1 < c.bstatus)
}

pub fn pending(lines: u32, c: Core) -> u32
    ensures { result ≡ ipending lines c }
{
    word::and(lines, c.ienable)
}

pub fn interrupted(lines: u32, c: Core) -> bool
    ensures { result ≡ interrupted_of lines c }
{
    (c.status == 1) & (pending(lines, c) != 0)
}

// ---- where a step goes on

pub fn next_pc(c: Core) -> u32
    ensures { result ≡ next_pc c }
{
    word::add(c.pc, 4)
}

pub fn next(c: Core) -> Core
    ensures { result ≡ next_of c }
{
    c.with_pc(next_pc(c))
}

pub fn only(c: Core) -> Change
    ensures { result ≡ only_of c }
{
    writes(0, 0, c)
}

pub fn writes(dest: u32, value: u32, c: Core) -> Change
    ensures { result ≡ writes_of dest value c }
{
    Change {
        dest,
        value,
        core: c,
    }
}

// ---- exceptions, and the ways back: in pairs that differ in two words of the state each, and one line is plainer than parameters for those

pub fn exception(s: Settings, c: Core) -> Change
    ensures { result ≡ exception_of s c }
{
    let entered = c.with_estatus(c.status).with_status(0).with_pc(s.exception);
    writes(29, next_pc(c), entered)
}

pub fn breaks(s: Settings, c: Core) -> Change
    ensures { result ≡ breaks_of s c }
{
    let entered = c.with_bstatus(c.status).with_status(0).with_pc(s.breaks);
    writes(30, next_pc(c), entered)
}

pub fn eret(regs: &Regs, c: Core) -> Change
    ensures { result ≡ erets regs.now.r c }
{
    only(c.with_status(c.estatus).with_pc(regs.get(29)))
}

pub fn bret(regs: &Regs, c: Core) -> Change
    ensures { result ≡ brets regs.now.r c }
{
    only(c.with_status(c.bstatus).with_pc(regs.get(30)))
}

// ---- control registers: by number, since an enum would ask more of a caller than these do

pub fn control(s: Settings, lines: u32, c: Core, n: u32) -> u32
    ensures { result ≡ control_of s lines c n }
{
    match n {
        0 => c.status,
        1 => c.estatus,
        2 => c.bstatus,
        3 => c.ienable,
        4 => pending(lines, c),
        _ => s.cpuid,
    }
}

pub fn set_control(c: Core, n: u32, v: u32) -> Core
    ensures { result ≡ set_control c n v }
{
    match n {
        0 => c.with_status(v % 2),
        1 => c.with_estatus(v % 2),
        2 => c.with_bstatus(v % 2),
        3 => c.with_ienable(v),
        _ => c,
    }
}
