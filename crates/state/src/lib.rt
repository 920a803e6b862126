// The processor's state and settings: a setter for each word, the one way in which a register is written, the reasons for which a run ends,
// and states and settings as words.
#![tactic(auto)]

ghost use Rattle.std.specs.Prelude.{◌≡◌};
ghost use Rattle.state.specs.State.{with_pc, with_status, with_estatus, with_bstatus, with_ienable};
ghost use Rattle.state.specs.State.{reason_number, write_regs, read_reg, fresh_state, changed};
ghost use Rattle.state.specs.Words.{state_of, words_of, settings_of};

// r0 to r31. ea is r29, ba r30, ra r31.
#[derive(Clone, Copy, Debug, PartialEq, Eq)]
pub struct Regs {
    pub r: [u32; 32],
}

// The rest of the state.
#[derive(Clone, Copy, Debug, PartialEq, Eq)]
pub struct Core {
    pub pc: u32,
    pub status: u32,
    pub estatus: u32,
    pub bstatus: u32,
    pub ienable: u32,
}

#[derive(Clone, Copy, Debug, PartialEq, Eq)]
pub struct State {
    pub regs: Regs,
    pub core: Core,
}

// Addresses, the processor's number, and which units are present.
#[derive(Clone, Copy, Debug, PartialEq, Eq)]
pub struct Settings {
    pub reset: u32,
    pub exception: u32,
    pub breaks: u32,
    pub cpuid: u32,
    pub multiplier: bool,
    pub divider: bool,
}

// What a step changes: one register, or none where that is register 0 (no Option: a write to r0 is dropped in any case), and the rest of
// the state.
#[derive(Clone, Copy, Debug, PartialEq, Eq)]
pub struct Change {
    pub dest: u32,
    pub value: u32,
    pub core: Core,
}

// Why a run ended.
#[derive(Clone, Copy, Debug, PartialEq, Eq)]
pub enum Reason {
    // the budget is spent
    Spent = 0,
    // pc is no multiple of 4
    Misaligned = 10,
    // pc + 4 is above memory length
    Past = 11,
    // a word outside the list of instructions
    Outside = 12,
    // a custom instruction: OP 32
    Custom = 13,
    // a division without a quotient
    Quotient = 14,
    // a data address is no multiple of the width
    DataMisaligned = 15,
    // data address + width is above memory length
    DataPast = 16,
    // status, estatus or bstatus is above 1
    Unsound = 17,
}

impl Reason {
    // The paper's number, which `u32::from` would not say; by `as`, Rust's form for a discriminant.
    pub fn number(self) -> u32
        ensures { result ≡ reason_number self }
    {
        self as u32
    }
}

// ---- the rest of the state, one word at a time: a method for each, since no parameter can name a field

impl Core {
    pub fn with_pc(self, pc: u32) -> Self
        ensures { result ≡ with_pc self pc }
    {
        Core { pc, ..self }
    }

    pub fn with_status(self, status: u32) -> Self
        ensures { result ≡ with_status self status }
    {
        Core { status, ..self }
    }

    pub fn with_estatus(self, estatus: u32) -> Self
        ensures { result ≡ with_estatus self estatus }
    {
        Core { estatus, ..self }
    }

    pub fn with_bstatus(self, bstatus: u32) -> Self
        ensures { result ≡ with_bstatus self bstatus }
    {
        Core { bstatus, ..self }
    }

    pub fn with_ienable(self, ienable: u32) -> Self
        ensures { result ≡ with_ienable self ienable }
    {
        Core { ienable, ..self }
    }
}

// ---- registers

impl Regs {
    // Register i modulo 32. Here and below the index is made by `as`, since a usize has no From of a u32.
    pub fn get(&self, i: u32) -> u32
        ensures { result ≡ read_reg self.now.r i }
    {
        self.r[(i % 32) as usize]
    }

    // The registers with v in register i modulo 32; a write to r0 is dropped.
    #[tactic(auto, using(crate::proofs::Writes::write_one, crate::proofs::Writes::write_none))]
    pub fn with(mut self, i: u32, v: u32) -> Self
        ensures { result ≡ write_regs self i v }
    {
        let k = (i % 32) as usize;
        if k != 0 {
            self.r[k] = v;
        }
        self
    }

    // The same in place. What `with` hands back differs in one register alone, so that one is stored, and none where that would be r0.
    #[tactic(auto, using(crate::proofs::Writes::taken_back, crate::proofs::Writes::write_none))]
    pub fn set(&mut self, i: u32, v: u32)
        ensures { self.new ≡ write_regs self.old i v }
    {
        let k = (i % 32) as usize;
        if k == 0 {
            return;
        }
        let whole = *self;
        let after = whole.with(i, v);
        self.r[k] = after.r[k];
    }
}

// ---- states

impl State {
    // Zero in all registers, and a pc.
    pub fn fresh(pc: u32) -> Self
        ensures { result ≡ fresh_state pc }
    {
        let regs = Regs { r: [0; 32] };
        let core = Core {
            pc,
            status: 0,
            estatus: 0,
            bstatus: 0,
            ienable: 0,
        };
        State { regs, core }
    }

    // A step that is made changes the state.
    pub fn apply(&mut self, change: Change)
        ensures { self.new ≡ changed self.old change }
    {
        self.regs.set(change.dest, change.value);
        self.core = change.core;
    }
}

// ---- states and settings as words

// A state: r0 to r31, then pc, status, estatus, bstatus and ienable.
pub const STATE_LENGTH: usize = 37;

pub type StateWords = [u32; STATE_LENGTH];

// Settings: the reset, exception and break addresses, cpuid, and whether there is a multiplier and a divider: any word but 0 is yes.
pub const SETTINGS_LENGTH: usize = 6;

pub type SettingsWords = [u32; SETTINGS_LENGTH];

impl From<&StateWords> for State {
    ghost from_gives = { λ words s. s ≡ state_of words.now };

    fn from(words: &StateWords) -> State {
        let mut r = [0; 32];
        r.copy_from_slice(&words[..32]);
        let [.., pc, status, estatus, bstatus, ienable] = *words;
        let core = Core {
            pc,
            status,
            estatus,
            bstatus,
            ienable,
        };
        State {
            regs: Regs { r },
            core,
        }
    }
}

impl From<State> for StateWords {
    ghost from_gives = { λ s words. words ≡ words_of s };

    fn from(s: State) -> StateWords {
        let c = s.core;
        let mut words = [0; STATE_LENGTH];
        words[..32].copy_from_slice(&s.regs.r);
        words[32..].copy_from_slice(&[c.pc, c.status, c.estatus, c.bstatus, c.ienable]);
        words
    }
}

impl From<&SettingsWords> for Settings {
    ghost from_gives = { λ words s. s ≡ settings_of words.now };

    fn from(words: &SettingsWords) -> Settings {
        let [reset, exception, breaks, cpuid, multiplier, divider] = *words;
        Settings {
            reset,
            exception,
            breaks,
            cpuid,
            multiplier: multiplier != 0,
            divider: divider != 0,
        }
    }
}
