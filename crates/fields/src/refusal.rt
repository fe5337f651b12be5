// Why a call is refused.

#[derive(Clone, Copy, PartialEq, Eq, Debug)]
pub enum Refusal {
    // a number is outside its field
    OutsideField,
    // no such subscriber or line here
    UnknownParty,
    // no retained call runs under that call identifier
    NotRetained,
    // the limit of three or five records is reached
    LimitReached,
    // the table has no free place
    TableFull,
    // the caller holds all eight identifiers
    IdentifiersHeld,
    // the phase or the identifier does not allow it
    NotAllowed,
    // the link is full
    LinkFull,
    // nothing to hear, wake, offer or end
    NothingThere,
    // the caller or the line is busy
    PartyBusy,
    // the clock would go back, or too far
    ClockOutOfRange,
    // the last request number was used
    NumbersUsedUp,
    // too few places or bytes were supplied
    TooLittleRoom,
    // a setting or a link's capacity is not allowed
    SettingNotAllowed,
    // no memory can be had
    NoMemory,
}

// A refusal that gives back what was handed in.
#[derive(Drop)]
pub struct HandedBack<T> {
    pub refusal: Refusal,
    pub given: T,
}
