// The machine: one step, a run, a fresh start and the edit question.
#![tactic(auto)]

ghost use Rattle.std.specs.Prelude.{◌≡◌, ◌+◌, ◌^◌, ◌<◌, ◌≤◌, length};
ghost use Rattle.trace.specs.Access.{reads, stores, each, number, put};
ghost use Rattle.trace.specs.Machine.{answer};
ghost use Rattle.maps.specs.Both.{maps_of};
ghost use Rattle.machine.specs.Step.{bytes, loaded as loaded_of};
ghost use Rattle.machine.specs.Step.{loads, stores as stores_of, does, executes as executes_of, attempt, machine, within_of};
ghost use Rattle.machine.specs.Calls.{bad_memory, bad_map, bad_address, bad_settings, bad_state, bad_range, fresh_refusal, run_refusal, edit_refusal};
ghost use Rattle.machine.specs.Calls.{refusal_number, refused, run_of, ran, numbers, answered, started, fresh_of, edit_of, told, bad_budget, Lent};

use exec::{Effect, Width};
use isa::Fields;
use maps::Marks;
use state::{Change, Core, Reason, Settings, State};
use std::ops::Range;

// What an accepted run tells: why it ended, and the steps made.
#[derive(Clone, Copy, Debug, PartialEq, Eq)]
pub struct Ran {
    pub reason: Reason,
    pub steps: u32,
}

// Why a call is not accepted, with the paper's number.
#[derive(Clone, Copy, Debug, PartialEq, Eq)]
pub enum Refusal {
    BadMemory = 1,
    BadMap = 2,
    BadSettings = 3,
    BadState = 4,
    BadBudget = 5,
    BadRange = 6,
}

impl Refusal {
    // As `Reason::number`.
    pub fn number(self) -> u32
        ensures { result ≡ refusal_number self }
    {
        self as u32
    }
}

// The paper's number of a run's answer, and the steps made: of a refusal none.
pub fn numbers(answer: Result<Ran, Refusal>) -> (u32, u32)
    ensures { result ≡ numbers answer }
{
    match answer {
        Ok(ran) => (ran.reason.number(), ran.steps),
        Err(refusal) => (refusal.number(), 0),
    }
}

// ---- loads and stores

// The bytes of a width: a function beside its definition, and no discriminant of `exec`, which knows no memory.
fn size(w: Width) -> usize
    ensures { result ≡ bytes w }
{
    match w {
        Width::Byte => 1,
        Width::Half => 2,
        Width::Word => 4,
    }
}

// Width and sign come apart, here and below: a store has no sign.
fn loaded(w: Width, sign: bool, v: u32) -> u32
    ensures { result ≡ loaded_of w sign v }
{
    match w {
        Width::Byte => word::choose(sign, word::extend::<8>(v), v),
        Width::Half => word::choose(sign, word::extend::<16>(v), v),
        Width::Word => v,
    }
}

// Whether the n bytes at a can be used: a is a multiple of n, else the first reason; and they do not pass the end, else the second.
fn within(len: usize, a: usize, n: usize, crooked: Reason, past: Reason) -> Result<(), Reason>
    requires { (0 < n) × (a + n < 2 ^ 34) }
    ensures { result ≡ within_of len a n crooked past }
{
    if a % n != 0 {
        return Err(crooked);
    }
    if len < a + n {
        return Err(past);
    }
    Ok(())
}

// The word w as an instruction.
fn executes(state: &State, s: Settings, w: u32) -> Effect
    ensures { result ≡ executes_of s state.now.regs.r state.now.core w }
{
    let f = Fields::from(w);
    exec::exec(
        isa::decode(w),
        f,
        state.regs.get(f.a),
        state.regs.get(f.b),
        state.core.pc,
        s.multiplier,
        s.divider,
    )
}

// The lent slices of a run: memory, and the two maps as one value.
#[derive(Drop)]
struct Slices<'m, 'b, 'a> {
    mem: &'m mut [u8],
    marks: &'b mut Marks<'a>,
    ghost fits: { Lent mem.now marks.now.first.now marks.now.written.now },
}

impl Slices<'_, '_, '_> {
    ghost use Rattle.machine.specs.Ends.{parts, Held, left, ended, after_end, attempt_end};

    // The number in the N bytes at a. Here and below the bytes asked for are within memory: a fact of the address, and not of the type.
    fn number<const N: usize>(&self, a: usize) -> u32
        requires width { N ≤ 4 }
        requires within { a + N ≤ length self.now.mem.now }
        ensures { result ≡ number self.now.mem.now a N }
    {
        memory::load::<N>(self.mem, a)
    }

    // The same, and their marks. Were this no inlined function, or the next, the slices' addresses would be loaded at each use.
    #[inline(always)]
    fn take_bytes<const N: usize>(&mut self, a: usize) -> u32
        requires width { N ≤ 4 }
        requires within { a + N ≤ length self.old.mem.now }
        ensures { (result ≡ number self.old.mem.now a N) × (parts self.new ≡ left self.old self.old.mem.now (each reads a N)) }
    {
        self.marks.read::<N>(a);
        self.number::<N>(a)
    }

    // The same by the width.
    #[inline(always)]
    fn take(&mut self, a: usize, w: Width) -> u32
        requires { a + bytes w ≤ length self.old.mem.now }
        ensures { (result ≡ number self.old.mem.now a (bytes w)) × (parts self.new ≡ left self.old self.old.mem.now (each reads a (bytes w))) }
    {
        match w {
            Width::Byte => self.take_bytes::<1>(a),
            Width::Half => self.take_bytes::<2>(a),
            Width::Word => self.take_bytes::<4>(a),
        }
    }

    // The number v into the N bytes at a, and their marks.
    fn give_bytes<const N: usize>(&mut self, a: usize, v: u32)
        requires width { N ≤ 4 }
        requires within { a + N ≤ length self.old.mem.now }
        ensures { parts self.new ≡ left self.old (put self.old.mem.now a N v) (each stores a N) }
    {
        self.marks.store::<N>(a);
        memory::store::<N>(self.mem, a, v);
    }

    // The same by the width.
    fn give(&mut self, a: usize, w: Width, v: u32)
        requires { a + bytes w ≤ length self.old.mem.now }
        ensures { parts self.new ≡ left self.old (put self.old.mem.now a (bytes w) v) (each stores a (bytes w)) }
    {
        match w {
            Width::Byte => self.give_bytes::<1>(a, v),
            Width::Half => self.give_bytes::<2>(a, v),
            Width::Word => self.give_bytes::<4>(a, v),
        }
    }

    fn load(&mut self, c: Core, dest: u32, at: u32, w: Width, sign: bool) -> Result<Change, Reason>
        ensures { ended result self.new ≡ after_end (loads (length self.old.mem.now) c dest at w sign) self.old }
    {
        // here and below by `as`, since a usize has no From of a u32
        let a = at as usize;
        within(
            self.mem.len(),
            a,
            size(w),
            Reason::DataMisaligned,
            Reason::DataPast,
        )?;
        let v = self.take(a, w);
        Ok(rules::writes(dest, loaded(w, sign, v), rules::next(c)))
    }

    fn store(&mut self, c: Core, at: u32, w: Width, v: u32) -> Result<Change, Reason>
        ensures { ended result self.new ≡ after_end (stores_of (length self.old.mem.now) c at w v) self.old }
    {
        let a = at as usize;
        within(
            self.mem.len(),
            a,
            size(w),
            Reason::DataMisaligned,
            Reason::DataPast,
        )?;
        self.give(a, w, v);
        Ok(rules::only(rules::next(c)))
    }

    // The instruction takes effect. Settings and lines come apart, here and below: but for `control`, `rules` asks for one of them.
    #[tactic(auto, unfolding(crate::specs::Ends::after_end))]
    fn finish(
        &mut self,
        state: &State,
        s: Settings,
        lines: u32,
        e: Effect,
    ) -> Result<Change, Reason>
        ensures { ended result self.new ≡ after_end (does s lines (length self.old.mem.now) state.now.regs.r state.now.core e) self.old }
    {
        let c = state.core;
        match e {
            Effect::Stop(reason) => Err(reason),
            Effect::Next => Ok(rules::only(rules::next(c))),
            Effect::Put(d, v) => Ok(rules::writes(d, v, rules::next(c))),
            Effect::Go(t) => Ok(rules::only(c.with_pc(t))),
            Effect::Link(t) => Ok(rules::writes(31, rules::next_pc(c), c.with_pc(t))),
            Effect::Load {
                dest,
                at,
                width,
                sign,
            } => self.load(c, dest, at, width, sign),
            Effect::Store { at, value, width } => self.store(c, at, width, value),
            Effect::Read(d, n) => {
                Ok(rules::writes(d, rules::control(s, lines, c, n), rules::next(c)))
            },
            Effect::Write(n, v) => Ok(rules::only(rules::next(rules::set_control(c, n, v)))),
            Effect::Raise => Ok(rules::exception(s, c)),
            Effect::Break => Ok(rules::breaks(s, c)),
            Effect::Eret => Ok(rules::eret(&state.regs, c)),
            Effect::Bret => Ok(rules::bret(&state.regs, c)),
            Effect::Ret => Ok(rules::only(c.with_pc(state.regs.get(31)))),
        }
    }

    // One attempted step.
    fn step(&mut self, state: &State, s: Settings, lines: u32) -> Result<Change, Reason>
        ensures { ended result self.new ≡ attempt_end (attempt s lines (length self.old.mem.now) state.now.regs.r state.now.core) self.old }
    {
        let c = state.core;
        if rules::above(c) {
            return Err(Reason::Unsound);
        }
        if rules::interrupted(lines, c) {
            return Ok(rules::exception(s, c));
        }
        let at = c.pc as usize;
        within(self.mem.len(), at, 4, Reason::Misaligned, Reason::Past)?;
        let w = self.take(at, Width::Word);
        let e = executes(state, s, w);
        self.finish(state, s, lines, e)
    }

    // At most `budget` steps, until one stops. The slices stay those that were lent.
    fn steps(&mut self, state: &mut State, s: Settings, lines: u32, budget: u32) -> Ran
        ensures ran { ran result state.new self.new.mem.now (maps_of self.new.marks.now) ≡ answer (machine s lines (length self.old.mem.now)) budget state.old self.old.mem.now (maps_of self.old.marks.now) }
        ensures held { Held self.old self.new }
    {
        for n in 0..budget {
            match self.step(state, s, lines) {
                Ok(change) => state.apply(change),
                Err(reason) => return Ran { reason, steps: n },
            }
        }
        Ran {
            reason: Reason::Spent,
            steps: budget,
        }
    }
}

// ---- what is not accepted

fn bad_memory(len: usize) -> bool
    ensures { result ≡ bad_memory len }
{
    (len < 8) | (1048576 < len) | (len % 8 != 0)
}

fn bad_map(len: usize, map: usize) -> bool
    ensures { result ≡ bad_map len map }
{
    map != len / 8
}

fn bad_address(len: usize, a: u32) -> bool
    ensures { result ≡ bad_address len a }
{
    (a % 4 != 0) | (len < a as usize + 4)
}

fn bad_settings(len: usize, s: Settings) -> bool
    ensures { result ≡ bad_settings len s }
{
    bad_address(len, s.reset) | bad_address(len, s.exception) | bad_address(len, s.breaks)
}

fn bad_state(state: &State) -> bool
    ensures { result ≡ bad_state state.now }
{
    (state.regs.r[0] != 0) | rules::above(state.core)
}

fn bad_range(len: usize, range: &Range<usize>) -> bool
    ensures { result ≡ bad_range len range.now.start range.now.end }
{
    (range.end < range.start) | (len < range.end)
}

fn bad_budget(budget: u32) -> bool
    ensures { result ≡ bad_budget budget }
{
    1000000 < budget
}

// A fresh start uses 1 to 3.
#[tactic(auto, unfolding(crate::specs::Calls::fresh_refusal))]
fn fresh_refusal(len: usize, read: usize, written: usize, s: Settings) -> Result<(), Refusal>
    ensures { refused result ≡ fresh_refusal len read written s }
{
    if bad_memory(len) {
        return Err(Refusal::BadMemory);
    }
    if bad_map(len, read) | bad_map(len, written) {
        return Err(Refusal::BadMap);
    }
    if bad_settings(len, s) {
        return Err(Refusal::BadSettings);
    }
    Ok(())
}

// A run uses 1 to 5.
fn run_refusal(
    len: usize,
    read: usize,
    written: usize,
    s: Settings,
    state: &State,
    budget: u32,
) -> Result<(), Refusal>
    ensures { refused result ≡ run_refusal len read written s state.now budget }
{
    fresh_refusal(len, read, written, s)?;
    if bad_state(state) {
        return Err(Refusal::BadState);
    }
    if bad_budget(budget) {
        return Err(Refusal::BadBudget);
    }
    Ok(())
}

// The edit question uses 1, 2 and 6.
#[tactic(auto, unfolding(crate::specs::Calls::edit_refusal))]
fn edit_refusal(len: usize, read: usize, range: &Range<usize>) -> Result<(), Refusal>
    ensures { refused result ≡ edit_refusal len read range.now.start range.now.end }
{
    if bad_memory(len) {
        return Err(Refusal::BadMemory);
    }
    if bad_map(len, read) {
        return Err(Refusal::BadMap);
    }
    if bad_range(len, range) {
        return Err(Refusal::BadRange);
    }
    Ok(())
}

// ---- the calls: memory and maps are slices, as C lends them, and the promises name each

// A fresh start: zero in all registers, pc at the reset address, both maps cleared.
#[tactic(auto, using(crate::proofs::Accepted::calls))]
pub fn fresh(
    mem: &[u8],
    read: &mut [u8],
    written: &mut [u8],
    state: &mut State,
    s: Settings,
) -> Result<(), Refusal>
    ensures { started result state.new read.new written.new ≡ fresh_of (length mem.now) read.old written.old state.old s }
{
    fresh_refusal(mem.len(), read.len(), written.len(), s)?;
    maps::wipe(read);
    maps::wipe(written);
    *state = State::fresh(s.reset);
    Ok(())
}

// A run of at most `budget` steps, with the lines held.
#[tactic(auto, using(crate::proofs::Accepted::calls))]
pub fn run(
    mem: &mut [u8],
    read: &mut [u8],
    written: &mut [u8],
    state: &mut State,
    s: Settings,
    lines: u32,
    budget: u32,
) -> Result<Ran, Refusal>
    ensures { answered result state.new mem.new read.new written.new ≡ run_of mem.old read.old written.old state.old s lines budget }
{
    run_refusal(mem.len(), read.len(), written.len(), s, state, budget)?;
    let mut marks = Marks {
        first: read,
        written,
    };
    let mut lent = Slices {
        mem,
        marks: &mut marks,
    };
    Ok(lent.steps(state, s, lines, budget))
}

// Whether an edit of the bytes of the range leaves the run as it is.
#[tactic(auto, using(crate::proofs::Accepted::calls))]
pub fn edit(len: usize, read: &[u8], range: Range<usize>) -> Result<bool, Refusal>
    ensures { told result ≡ edit_of len read.now range.start range.end }
{
    edit_refusal(len, read.len(), &range)?;
    Ok(maps::none(read, range))
}
