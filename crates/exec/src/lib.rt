// What an instruction does: from its kind, fields and operands to an effect. No memory and no state in it.
#![tactic(auto)]

ghost use Rattle.std.specs.Prelude.{◌≡◌};
ghost use Rattle.exec.specs.Exec.{signed_of, call_of, branch_of, with_unit, with_control, quotient_of, load_of, store_of, listed_of, exec_of};

use isa::{Fields, Kind};
use state::Reason;
use word::Undefined;

// How much a load or a store moves.
#[derive(Clone, Copy, Debug, PartialEq, Eq)]
pub enum Width {
    Byte,
    Half,
    Word,
}

// What a step does to the state and to memory. Register 0 is never written.
#[derive(Clone, Copy, Debug, PartialEq, Eq)]
pub enum Effect {
    // a stop, with its reason
    Stop(Reason),
    // pc + 4 and nothing else
    Next,
    // a register takes a value; pc + 4
    Put(u32, u32),
    // pc takes a value
    Go(u32),
    // ra takes pc + 4, pc a value
    Link(u32),
    // a register takes the value loaded, with its sign or with zeros; pc + 4
    Load {
        dest: u32,
        at: u32,
        width: Width,
        sign: bool,
    },
    Store {
        at: u32,
        value: u32,
        width: Width,
    },
    // a register takes a control register, by the number that `rules::control` is asked with; pc + 4
    Read(u32, u32),
    // a control register takes a value; pc + 4
    Write(u32, u32),
    // the exception
    Raise,
    Break,
    Eret,
    Bret,
    Ret,
}

// The signed immediate.
fn signed(f: Fields) -> u32
    ensures { result ≡ signed_of f }
{
    word::extend::<16>(f.imm16)
}

fn call_target(f: Fields, pc: u32) -> u32
    ensures { result ≡ call_of f pc }
{
    pc / 0x1000_0000 * 0x1000_0000 + f.imm26 % 0x400_0000 * 4
}

fn branch(f: Fields, pc: u32, taken: bool) -> Effect
    ensures { result ≡ branch_of f pc taken }
{
    if taken {
        return Effect::Go(word::add(word::add(pc, 4), signed(f)));
    }
    Effect::Next
}

// Width and sign come apart, here and above: a store has no sign.
fn load(f: Fields, a: u32, width: Width, sign: bool) -> Effect
    ensures { result ≡ load_of f a width sign }
{
    Effect::Load {
        dest: f.b,
        at: word::add(a, signed(f)),
        width,
        sign,
    }
}

fn store(f: Fields, a: u32, b: u32, width: Width) -> Effect
    ensures { result ≡ store_of f a b width }
{
    Effect::Store {
        at: word::add(a, signed(f)),
        value: b,
        width,
    }
}

// An instruction whose unit may be missing.
fn with_unit(there: bool, e: Effect) -> Effect
    ensures { result ≡ with_unit there e }
{
    if there { e } else { Effect::Raise }
}

// An instruction that names a control register.
fn with_control(f: Fields, e: Effect) -> Effect
    ensures { result ≡ with_control f e }
{
    if f.imm5 < 6 {
        e
    } else {
        Effect::Stop(Reason::Outside)
    }
}

fn quotient(dest: u32, q: Result<u32, Undefined>) -> Effect
    ensures { result ≡ quotient_of dest q }
{
    match q {
        Ok(v) => Effect::Put(dest, v),
        Err(_) => Effect::Stop(Reason::Quotient),
    }
}

// A word of the list. a and b are the registers A and B; mul and div say whether multiplier and divider are present.
fn listed(k: Kind, f: Fields, a: u32, b: u32, pc: u32, mul: bool, div: bool) -> Effect
    ensures { result ≡ listed_of k f a b pc mul div }
{
    match k {
        Kind::Call => Effect::Link(call_target(f, pc)),
        Kind::Ldbu => load(f, a, Width::Byte, false),
        Kind::Addi => Effect::Put(f.b, word::add(a, signed(f))),
        Kind::Stb => store(f, a, b, Width::Byte),
        Kind::Br => branch(f, pc, true),
        Kind::Ldb => load(f, a, Width::Byte, true),
        Kind::Cmpgei => Effect::Put(f.b, word::flag(!word::less_signed(a, signed(f)))),
        Kind::Ldhu => load(f, a, Width::Half, false),
        Kind::Andi => Effect::Put(f.b, word::and(a, f.imm16)),
        Kind::Sth => store(f, a, b, Width::Half),
        Kind::Bge => branch(f, pc, !word::less_signed(a, b)),
        Kind::Ldh => load(f, a, Width::Half, true),
        Kind::Cmplti => Effect::Put(f.b, word::flag(word::less_signed(a, signed(f)))),
        Kind::Ori => Effect::Put(f.b, word::or(a, f.imm16)),
        Kind::Stw => store(f, a, b, Width::Word),
        Kind::Blt => branch(f, pc, word::less_signed(a, b)),
        Kind::Ldw => load(f, a, Width::Word, false),
        Kind::Cmpnei => Effect::Put(f.b, word::flag(a != signed(f))),
        Kind::Xori => Effect::Put(f.b, word::xor(a, f.imm16)),
        Kind::Bne => branch(f, pc, a != b),
        Kind::Cmpeqi => Effect::Put(f.b, word::flag(a == signed(f))),
        Kind::Muli => with_unit(mul, Effect::Put(f.b, word::mul(a, signed(f)))),
        Kind::Beq => branch(f, pc, a == b),
        Kind::Cmpgeui => Effect::Put(f.b, word::flag(!word::less(a, f.imm16))),
        Kind::Andhi => Effect::Put(f.b, word::and(a, word::high(f.imm16))),
        Kind::Bgeu => branch(f, pc, !word::less(a, b)),
        Kind::Cmpltui => Effect::Put(f.b, word::flag(word::less(a, f.imm16))),
        Kind::Custom => Effect::Stop(Reason::Custom),
        Kind::Initd => Effect::Next,
        Kind::Orhi => Effect::Put(f.b, word::or(a, word::high(f.imm16))),
        Kind::Bltu => branch(f, pc, word::less(a, b)),
        Kind::Flushd => Effect::Next,
        Kind::Xorhi => Effect::Put(f.b, word::xor(a, word::high(f.imm16))),
        Kind::Ldbuio => load(f, a, Width::Byte, false),
        Kind::Stbio => store(f, a, b, Width::Byte),
        Kind::Ldbio => load(f, a, Width::Byte, true),
        Kind::Ldhuio => load(f, a, Width::Half, false),
        Kind::Sthio => store(f, a, b, Width::Half),
        Kind::Ldhio => load(f, a, Width::Half, true),
        Kind::Stwio => store(f, a, b, Width::Word),
        Kind::Ldwio => load(f, a, Width::Word, false),
        Kind::Eret => Effect::Eret,
        Kind::Roli => Effect::Put(f.c, word::rol(a, f.imm5)),
        Kind::Rol => Effect::Put(f.c, word::rol(a, b)),
        Kind::Flushp => Effect::Next,
        Kind::Ret => Effect::Ret,
        Kind::Nor => Effect::Put(f.c, word::nor(a, b)),
        Kind::Mulxuu => with_unit(mul, Effect::Put(f.c, word::mulxuu(a, b))),
        Kind::Cmpge => Effect::Put(f.c, word::flag(!word::less_signed(a, b))),
        Kind::Bret => Effect::Bret,
        Kind::Ror => Effect::Put(f.c, word::ror(a, b)),
        Kind::Flushi => Effect::Next,
        Kind::Jmp => Effect::Go(a),
        Kind::And => Effect::Put(f.c, word::and(a, b)),
        Kind::Cmplt => Effect::Put(f.c, word::flag(word::less_signed(a, b))),
        Kind::Slli => Effect::Put(f.c, word::sll(a, f.imm5)),
        Kind::Sll => Effect::Put(f.c, word::sll(a, b)),
        Kind::Or => Effect::Put(f.c, word::or(a, b)),
        Kind::Mulxsu => with_unit(mul, Effect::Put(f.c, word::mulxsu(a, b))),
        Kind::Cmpne => Effect::Put(f.c, word::flag(a != b)),
        Kind::Srli => Effect::Put(f.c, word::srl(a, f.imm5)),
        Kind::Srl => Effect::Put(f.c, word::srl(a, b)),
        Kind::Nextpc => Effect::Put(f.c, word::add(pc, 4)),
        Kind::Callr => Effect::Link(a),
        Kind::Xor => Effect::Put(f.c, word::xor(a, b)),
        Kind::Mulxss => with_unit(mul, Effect::Put(f.c, word::mulxss(a, b))),
        Kind::Cmpeq => Effect::Put(f.c, word::flag(a == b)),
        Kind::Divu => with_unit(div, quotient(f.c, word::divu(a, b))),
        Kind::Div => with_unit(div, quotient(f.c, word::div(a, b))),
        Kind::Rdctl => with_control(f, Effect::Read(f.c, f.imm5)),
        Kind::Mul => with_unit(mul, Effect::Put(f.c, word::mul(a, b))),
        Kind::Cmpgeu => Effect::Put(f.c, word::flag(!word::less(a, b))),
        Kind::Initi => Effect::Next,
        Kind::Trap => Effect::Raise,
        Kind::Wrctl => with_control(f, Effect::Write(f.imm5, a)),
        Kind::Cmpltu => Effect::Put(f.c, word::flag(word::less(a, b))),
        Kind::Add => Effect::Put(f.c, word::add(a, b)),
        Kind::Break => Effect::Break,
        Kind::Sync => Effect::Next,
        Kind::Sub => Effect::Put(f.c, word::sub(a, b)),
        Kind::Srai => Effect::Put(f.c, word::sra(a, f.imm5)),
        Kind::Sra => Effect::Put(f.c, word::sra(a, b)),
    }
}

// A word, by its kind: one that is not in the list has none. The other parameters are only handed on, and so are no struct.
pub fn exec(k: Option<Kind>, f: Fields, a: u32, b: u32, pc: u32, mul: bool, div: bool) -> Effect
    ensures { result ≡ exec_of k f a b pc mul div }
{
    match k {
        Some(k) => listed(k, f, a, b, pc, mul, div),
        None => Effect::Stop(Reason::Outside),
    }
}
