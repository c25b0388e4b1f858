// The reasons to say no, and their numbers.
ghost use Rattle.std.specs.Prelude.{◌≡◌};
ghost use Rattle.model.specs.Refusals.{due, number_of};
ghost use Rattle.model.specs.Results.{refuse};

// Why a call refuses: one reason for each number of the formats, 1 to 21 in this order.
#[derive(Clone, Copy, Debug, PartialEq, Eq)]
pub enum Refusal {
    // the record ends before or inside a field or rule
    CutShort = 1,
    // the record names no target
    NoTarget,
    // a head field is out of its range
    Head,
    // a rule count, or a rule's map, state or symbol, is out of its range
    Rule,
    // a field says what its absence would
    Needless,
    // bytes follow the last field
    Trailing,
    // a store is too small for what it must hold
    Store,
    // a schedule has an odd length, or more than 8,190 bytes
    ScheduleSize,
    // a turn number is above 2K-1, or below the one before
    Turn,
    // a rule number is not in the list, or its rule does not apply
    Step,
    // a rule that the list lacks is marked as held
    Mark,
    // a turn ends right after a held step
    Held,
    // a rule is not above the one before it
    Order,
    // two models to be merged have different heads
    Heads,
    // a rule is held in one of them and free in the other
    Clash,
    // a thread of both has more than 64 rules
    ManyRules,
    // a symbol is not below its thread's symbol count
    Symbol,
    // a log has more than 4,095 bytes, or a byte with bit 6 set
    Log,
    // a tray to be judged has more than 32 records
    ManyRecords,
    // the list for its outcomes has too few places
    Places,
    // a model to be printed as one system has held rules or named tops
    NotPlain,
}

impl Refusal {
    // The number that the formats give it.
    pub fn number(self) -> u8
        ensures { result ≡ number_of self }
    {
        self as u8
    }
}

// A refusal where a test fails.
pub fn need(test: bool, refusal: Refusal) -> Result<(), Refusal>
    ensures { due result ≡ refuse (number_of refusal) test }
{
    if test { Ok(()) } else { Err(refusal) }
}
