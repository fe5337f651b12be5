// The number of each refusal.
ghost use Rattle.std.specs.Prelude.{◌≡◌};
ghost use Rattle.fields.specs.Refusals.{refusal_number};

use crate::refusal::Refusal;

impl From<Refusal> for u8 {
    ghost from_gives = { λ refusal n. n ≡ refusal_number refusal };

    fn from(refusal: Refusal) -> u8 {
        match refusal {
            Refusal::OutsideField => 1,
            Refusal::UnknownParty => 2,
            Refusal::NotRetained => 3,
            Refusal::LimitReached => 4,
            Refusal::TableFull => 5,
            Refusal::IdentifiersHeld => 6,
            Refusal::NotAllowed => 7,
            Refusal::LinkFull => 8,
            Refusal::NothingThere => 9,
            Refusal::PartyBusy => 10,
            Refusal::ClockOutOfRange => 11,
            Refusal::NumbersUsedUp => 12,
            Refusal::TooLittleRoom => 16,
            Refusal::SettingNotAllowed => 17,
            Refusal::NoMemory => 23,
        }
    }
}
