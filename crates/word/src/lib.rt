// Arithmetic of 32-bit words. Every function takes any words, and its contract is one equation to a definition of specs/.
#![tactic(auto)]

ghost use Rattle.std.specs.Prelude.{◌≡◌, ◌<◌, ◌≤◌};
ghost use Rattle.word.specs.Integer.{upper_of};
ghost use Rattle.word.specs.Word.{add_of, sub_of, extend_of, high_of, choose_of, less_signed_of, less_of, flag_of};
ghost use Rattle.word.specs.Word.{mul_of, mulxuu_of, mulxss_of, mulxsu_of, divu_of, div_of};
ghost use Rattle.word.specs.Word.{sll_of, srl_of, sra_of, rol_of, ror_of, and_of, or_of, xor_of, nor_of};

// Why a division gives no quotient: the handbook calls its result undefined. That it stops a run is for the step to say.
#[derive(Clone, Copy, Debug, PartialEq, Eq)]
pub enum Undefined {
    ByZero,
    // 80000000 by FFFFFFFF, as signed integers
    TooLarge,
}

pub fn add(a: u32, b: u32) -> u32
    ensures { result ≡ add_of a b }
{
    a.wrapping_add(b)
}

#[tactic(auto, unfolding(crate::specs::Word::sub_of))]
pub fn sub(a: u32, b: u32) -> u32
    ensures { result ≡ sub_of a b }
{
    a.wrapping_sub(b)
}

// One of two values, without a branch in the caller's proof.
pub fn choose<T: Drop>(c: bool, x: T, y: T) -> T
    ensures { result ≡ choose_of c x y }
{
    if c { x } else { y }
}

// The lowest BITS bits with their sign: they go to the top, and come back with copies of the sign bit.
#[tactic(auto, using(crate::proofs::Signs::casts, crate::proofs::Signs::extended), unfolding(crate::specs::Word::extend_of))]
pub fn extend<const BITS: u32>(n: u32) -> u32
    requires some { 0 < BITS }
    requires word { BITS ≤ 32 }
    ensures { result ≡ extend_of BITS n }
{
    let k = u32::BITS - BITS;
    ((n << k).cast_signed() >> k).cast_unsigned()
}

// The lowest 16 bits as the upper half.
pub fn high(n: u32) -> u32
    ensures { result ≡ high_of n }
{
    n << 16
}

#[tactic(auto, using(crate::proofs::Signs::casts), unfolding(crate::specs::Word::less_signed_of))]
pub fn less_signed(a: u32, b: u32) -> bool
    ensures { result ≡ less_signed_of a b }
{
    a.cast_signed() < b.cast_signed()
}

pub fn less(a: u32, b: u32) -> bool
    ensures { result ≡ less_of a b }
{
    a < b
}

pub fn flag(c: bool) -> u32
    ensures { result ≡ flag_of c }
{
    u32::from(c)
}

// Bits 63..32, by `as`: a u32 has no From of a u64.
fn upper(z: i64) -> u32
    ensures { result ≡ upper_of z }
{
    (z.cast_unsigned() >> 32) as u32
}

pub fn mul(a: u32, b: u32) -> u32
    ensures { result ≡ mul_of a b }
{
    a.wrapping_mul(b)
}

// As u64: the product of two words without signs may pass i64::MAX.
#[tactic(auto, unfolding(crate::specs::Word::mulxuu_of))]
pub fn mulxuu(a: u32, b: u32) -> u32
    ensures { result ≡ mulxuu_of a b }
{
    ((u64::from(a) * u64::from(b)) >> 32) as u32
}

#[tactic(auto, using(crate::proofs::Signs::casts), unfolding(crate::specs::Word::mulxss_of))]
pub fn mulxss(a: u32, b: u32) -> u32
    ensures { result ≡ mulxss_of a b }
{
    upper(i64::from(a.cast_signed()) * i64::from(b.cast_signed()))
}

#[tactic(auto, using(crate::proofs::Signs::casts), unfolding(crate::specs::Word::mulxsu_of))]
pub fn mulxsu(a: u32, b: u32) -> u32
    ensures { result ≡ mulxsu_of a b }
{
    upper(i64::from(a.cast_signed()) * i64::from(b))
}

#[tactic(auto, unfolding(crate::specs::Word::divu_of))]
pub fn divu(a: u32, b: u32) -> Result<u32, Undefined>
    ensures { result ≡ divu_of a b }
{
    a.checked_div(b).ok_or(Undefined::ByZero)
}

#[tactic(auto, using(crate::proofs::Signs::casts), unfolding(crate::specs::Word::div_of))]
pub fn div(a: u32, b: u32) -> Result<u32, Undefined>
    ensures { result ≡ div_of a b }
{
    if b == 0 {
        return Err(Undefined::ByZero);
    }
    match a.cast_signed().checked_div(b.cast_signed()) {
        Some(q) => Ok(q.cast_unsigned()),
        None => Err(Undefined::TooLarge),
    }
}

pub fn sll(a: u32, n: u32) -> u32
    ensures { result ≡ sll_of a n }
{
    a.wrapping_shl(n)
}

pub fn srl(a: u32, n: u32) -> u32
    ensures { result ≡ srl_of a n }
{
    a.wrapping_shr(n)
}

#[tactic(auto, using(crate::proofs::Signs::casts), unfolding(crate::specs::Word::sra_of))]
pub fn sra(a: u32, n: u32) -> u32
    ensures { result ≡ sra_of a n }
{
    a.cast_signed().wrapping_shr(n).cast_unsigned()
}

#[tactic(auto, using(crate::proofs::Turns::left))]
pub fn rol(a: u32, n: u32) -> u32
    ensures { result ≡ rol_of a n }
{
    a.rotate_left(n)
}

#[tactic(auto, using(crate::proofs::Turns::right, crate::proofs::Turns::right_by_left))]
pub fn ror(a: u32, n: u32) -> u32
    ensures { result ≡ ror_of a n }
{
    a.rotate_right(n)
}

pub fn and(a: u32, b: u32) -> u32
    ensures { result ≡ and_of a b }
{
    a & b
}

pub fn or(a: u32, b: u32) -> u32
    ensures { result ≡ or_of a b }
{
    a | b
}

pub fn xor(a: u32, b: u32) -> u32
    ensures { result ≡ xor_of a b }
{
    a ^ b
}

pub fn nor(a: u32, b: u32) -> u32
    ensures { result ≡ nor_of a b }
{
    !(a | b)
}
