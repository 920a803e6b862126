// The machine for C and Rust: numbers and slices only, and no call asks anything of its caller.
#![tactic(auto)]

ghost use Rattle.std.specs.Prelude.{◌≡◌, false, length, IfSome, IfNone};
ghost use Rattle.state.specs.Words.{state_of, settings_of};
ghost use Rattle.machine.specs.Calls.{told};
ghost use Rattle.nios2c.specs.Words.{fits, afresh, fresh_words, ran, run_words, number_of, edit_words};

use machine::Refusal;
use state::{Settings, SettingsWords, State, StateWords};

// State and settings, where each has the words that it needs: C hands slices.
fn taken(state: &[u32], settings: &[u32]) -> Option<(State, Settings)>
    ensures some { IfSome result (λ x. (length state.now ≡ 37) × (length settings.now ≡ 6) × (x.0 ≡ state_of state.now) × (x.1 ≡ settings_of settings.now)) }
    ensures none { IfNone result (fits (length state.now) (length settings.now) ≡ false) }
{
    let state = <&StateWords>::try_from(state).ok()?;
    let settings = <&SettingsWords>::try_from(settings).ok()?;
    Some((State::from(state), Settings::from(settings)))
}

// A number, for C: 1 for yes, 0 for no, and from 257 on a refusal.
#[tactic(auto, using(crate::proofs::Calls::small))]
fn number(asked: Result<bool, Refusal>) -> u32
    ensures { result ≡ number_of (told asked) }
{
    match asked {
        Ok(yes) => u32::from(yes),
        Err(refusal) => 256 + refusal.number(),
    }
}

// ---- the calls

// A fresh start. 255: state is not 37 words, or settings not 6, and nothing is changed.
#[unsafe(no_mangle)]
#[tactic(auto, unfolding(crate::specs::Words::fresh_words))]
pub extern "C" fn nios2_fresh(
    mem: &[u8],
    read: &mut [u8],
    written: &mut [u8],
    state: &mut [u32],
    settings: &[u32],
) -> u32
    ensures { afresh result read.new written.new state.new ≡ fresh_words (length mem.now) read.old written.old state.old settings.now }
{
    let Some((mut held, s)) = taken(state, settings) else {
        return 255;
    };
    let start = machine::fresh(mem, read, written, &mut held, s);
    state.copy_from_slice(&StateWords::from(held));
    match start {
        Ok(()) => 0,
        Err(refusal) => refusal.number(),
    }
}

// A run. 255 as above; where the answer is not 2 words, nothing is told or changed.
#[unsafe(no_mangle)]
#[tactic(auto, unfolding(crate::specs::Words::run_words))]
pub extern "C" fn nios2_run(
    mem: &mut [u8],
    read: &mut [u8],
    written: &mut [u8],
    state: &mut [u32],
    settings: &[u32],
    lines: u32,
    budget: u32,
    answer: &mut [u32],
)
    ensures { ran mem.new read.new written.new state.new answer.new ≡ run_words mem.old read.old written.old state.old settings.now lines budget answer.old }
{
    if answer.len() != 2 {
        return;
    }
    let Some((mut held, s)) = taken(state, settings) else {
        answer.copy_from_slice(&[255, 0]);
        return;
    };
    let end = machine::run(mem, read, written, &mut held, s, lines, budget);
    state.copy_from_slice(&StateWords::from(held));
    let (number, steps) = machine::numbers(end);
    answer.copy_from_slice(&[number, steps]);
}

// Whether an edit of the bytes start..end leaves the run as it is: 1 yes, 0 no, or 256 and a refusal's number.
#[unsafe(no_mangle)]
pub extern "C" fn nios2_edit(memory_length: u64, read: &[u8], start: u64, end: u64) -> u32
    ensures { result ≡ edit_words memory_length read.now start end }
{
    // C's 64-bit numbers by `as`, since a usize has no From of a u64
    let range = start as usize..end as usize;
    number(machine::edit(memory_length as usize, read, range))
}
