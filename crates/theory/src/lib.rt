#![tactic(auto)]
// States, actions and logs: whether an action is possible, what it does, the state at a position, and which refusal a theory or a log has. Knows no
// rule and no sheet.
ghost use Rattle.std.specs.Prelude.{◌≡◌};
ghost use Rattle.refusal.specs.Given.{number_given, value_given};
ghost use Rattle.meaning.specs.Refusal.{no_state};
ghost use Rattle.theory.specs.Subject.{counted, plain_subject, setting_of, unvalued as withoutValues};
ghost use Rattle.theory.specs.Answer.{StateAnswered};
ghost use Rattle.theory.specs.Possible.{verdict_given, PossibleAnswered};

pub mod step; // step.rt: one action in one state
pub mod rows; // rows.rt: a row of the table from four masks
pub mod log; // log.rt: the state after some steps of a log
pub mod faults; // faults.rt: refusals 3, 4 and 5

use refusal::Refusal;

// The limits of document 01, and how many masks of a table belong to one action: need, ban, then twice when, unless, put, drop.
pub const FLUENT_LIMIT: usize = 32;

pub const ACTION_LIMIT: usize = 64;

pub const STRIDE: usize = 10;

// "`domain=NN` (01 to 16)": the values that a variable can have.
pub const DOMAIN_LIMIT: usize = 16;

// "`now=step` or `now=end`", 0 or 1: the number of the last reading.
pub const READING_LIMIT: usize = 1;

// How many fluents and actions a theory has, and how many values a variable: what a rule is read against. A struct, so that they are told apart by their
// names. A domain of 0 is a call without variables.
#[derive(Clone, Copy)]
pub struct Counts {
    pub fluents: usize,
    pub actions: usize,
    pub domain: usize,
}

impl Counts {
    pub fn of(fluents: usize, actions: usize, domain: usize) -> Counts
        ensures { result ≡ counted fluents actions domain }
    {
        Counts {
            fluents,
            actions,
            domain,
        }
    }
}

// The numbers that a call is asked of. The reading is one of them and no enum: a call may give any number, and all but two are refused.
#[derive(Clone, Copy)]
pub struct Setting {
    pub counts: Counts,
    pub start: u32,
    pub reading: usize,
}

impl Setting {
    pub fn of(fluents: usize, actions: usize, domain: usize, start: u32, reading: usize) -> Setting
        ensures { result ≡ setting_of fluents actions domain start reading }
    {
        let counts = Counts::of(fluents, actions, domain);
        Setting {
            counts,
            start,
            reading,
        }
    }
}

// What a call is asked of: these numbers, with the mask table and the log.
#[derive(Clone, Copy)]
pub struct Asked<'a> {
    pub setting: Setting,
    pub masks: &'a [u32],
    pub log: &'a [u8],
}

// A call without a rule has no variables and no tests, and looks neither at the domain nor at the reading.
fn unvalued(s: Setting) -> Setting
    ensures { result ≡ withoutValues s }
{
    let counts = Counts {
        domain: 0,
        ..s.counts
    };
    Setting {
        counts,
        reading: 0,
        ..s
    }
}

// The state at a position of the log.
pub fn state(asked: Asked, position: usize) -> Result<u32, Refusal>
    ensures { StateAnswered (plain_subject asked.entry) position (number_given result) (value_given no_state result) }
{
    let setting = unvalued(asked.setting);
    faults::check_world(Asked { setting, ..asked })?;
    if asked.log.len() < position {
        return Err(Refusal::BadPosition);
    }
    Ok(log::state_at(asked, position))
}

// Whether an action may be taken at a position of the log.
pub fn possible(asked: Asked, action: usize, position: usize) -> Result<bool, Refusal>
    ensures { PossibleAnswered (plain_subject asked.entry) action position (number_given result) (verdict_given result) }
{
    let setting = unvalued(asked.setting);
    faults::check_world(Asked { setting, ..asked })?;
    if asked.setting.counts.actions <= action {
        return Err(Refusal::LacksName);
    }
    if asked.log.len() < position {
        return Err(Refusal::BadPosition);
    }
    let state = log::state_at(asked, position);
    Ok(step::able(asked.masks, action, state))
}
