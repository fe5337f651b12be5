// Messages from and to plain numbers.
ghost use Rattle.std.specs.Prelude.{◌≡◌};
ghost use Rattle.link.specs.Messages.{cause_number, plain_party, plain_key, plain_kind, cause_of, party_of, key_of, kind_of, listed, unlisted, IsWrittenAs, IsReadAs};

use crate::message::{Kind, Message, NoCause, PlainKey, PlainKind, PlainMessage, PlainParty};
use fields::{
    CallAttributes, Extension, Identifier, Identity, Key, Priority, Refusal, Service, Ssi,
};

impl From<NoCause> for u64 {
    ghost from_gives = { λ cause n. n ≡ cause_number cause };

    fn from(cause: NoCause) -> u64 {
        match cause {
            NoCause::NoSuchLine => 1,
            NoCause::OtherService => 2,
            NoCause::QueueFull => 3,
            NoCause::TableFull => 4,
        }
    }
}

impl TryFrom<u64> for NoCause {
    type Error = Refusal;

    ghost try_from_gives = { λ n r. r ≡ cause_of n };

    fn try_from(number: u64) -> Result<NoCause, Refusal> {
        match number {
            1 => Ok(NoCause::NoSuchLine),
            2 => Ok(NoCause::OtherService),
            3 => Ok(NoCause::QueueFull),
            4 => Ok(NoCause::TableFull),
            _ => Err(Refusal::OutsideField),
        }
    }
}

// A kind that carries nothing.
fn bare(number: u64) -> PlainKind
    ensures { result ≡ record { number = number; priority = 0; service = 0; cause = 0 } }
{
    PlainKind {
        number,
        priority: 0,
        service: 0,
        cause: 0,
    }
}

impl From<Kind> for PlainKind {
    ghost from_gives = { λ kind plain. plain ≡ plain_kind kind };

    fn from(kind: Kind) -> PlainKind {
        match kind {
            Kind::Monitor(call) => PlainKind {
                number: 1,
                priority: call.priority.bits,
                service: call.service.bits,
                cause: 0,
            },
            Kind::Suspend => bare(2),
            Kind::Resume => bare(3),
            Kind::Setup => bare(4),
            Kind::Close => bare(5),
            Kind::Yes => bare(8),
            Kind::No(cause) => PlainKind {
                cause: u64::from(cause),
                ..bare(9)
            },
            Kind::Free => bare(10),
            Kind::BusyAgain => bare(11),
            Kind::Connected => bare(12),
            Kind::Failed => bare(13),
            Kind::LetGo => bare(14),
        }
    }
}

impl TryFrom<PlainKind> for Kind {
    type Error = Refusal;

    ghost try_from_gives = { λ plain r. r ≡ kind_of plain };

    fn try_from(plain: PlainKind) -> Result<Kind, Refusal> {
        let priority = Priority::try_from(plain.priority)?;
        let service = Service::try_from(plain.service)?;
        match (plain.number, plain.priority, plain.service, plain.cause) {
            (1, _, _, 0) => Ok(Kind::Monitor(CallAttributes { priority, service })),
            (2, 0, 0, 0) => Ok(Kind::Suspend),
            (3, 0, 0, 0) => Ok(Kind::Resume),
            (4, 0, 0, 0) => Ok(Kind::Setup),
            (5, 0, 0, 0) => Ok(Kind::Close),
            (8, 0, 0, 0) => Ok(Kind::Yes),
            (9, 0, 0, cause) => Ok(Kind::No(NoCause::try_from(cause)?)),
            (10, 0, 0, 0) => Ok(Kind::Free),
            (11, 0, 0, 0) => Ok(Kind::BusyAgain),
            (12, 0, 0, 0) => Ok(Kind::Connected),
            (13, 0, 0, 0) => Ok(Kind::Failed),
            (14, 0, 0, 0) => Ok(Kind::LetGo),
            _ => Err(Refusal::OutsideField),
        }
    }
}

impl From<Identity> for PlainParty {
    ghost from_gives = { λ party plain. plain ≡ plain_party party };

    fn from(party: Identity) -> PlainParty {
        let (ssi, extension) = party.parts();
        PlainParty {
            ssi: ssi.bits,
            extension: extension.bits,
        }
    }
}

impl TryFrom<PlainParty> for Identity {
    type Error = Refusal;

    ghost try_from_gives = { λ plain r. r ≡ party_of plain };

    fn try_from(plain: PlainParty) -> Result<Identity, Refusal> {
        let ssi = Ssi::try_from(plain.ssi)?;
        let extension = Extension::try_from(plain.extension)?;
        Ok(Identity::of(ssi, extension))
    }
}

impl From<Key> for PlainKey {
    ghost from_gives = { λ key plain. plain ≡ plain_key key };

    fn from(key: Key) -> PlainKey {
        PlainKey {
            identifier: key.identifier.bits,
            caller: PlainParty::from(key.caller),
            called: PlainParty::from(key.called),
        }
    }
}

impl TryFrom<PlainKey> for Key {
    type Error = Refusal;

    ghost try_from_gives = { λ plain r. r ≡ key_of plain };

    fn try_from(plain: PlainKey) -> Result<Key, Refusal> {
        Ok(Key {
            identifier: Identifier::try_from(plain.identifier)?,
            caller: Identity::try_from(plain.caller)?,
            called: Identity::try_from(plain.called)?,
        })
    }
}

impl From<Message> for PlainMessage {
    ghost from_gives = { IsWrittenAs };

    fn from(message: Message) -> PlainMessage {
        PlainMessage {
            kind: PlainKind::from(message.kind),
            key: PlainKey::from(message.key),
        }
    }
}

// Refuses what no message has.
impl TryFrom<PlainMessage> for Message {
    type Error = Refusal;

    ghost try_from_gives = { IsReadAs };

    fn try_from(plain: PlainMessage) -> Result<Message, Refusal> {
        Ok(Message {
            kind: Kind::try_from(plain.kind)?,
            key: Key::try_from(plain.key)?,
        })
    }
}

// The fields in the order in which a frame has them.
impl From<PlainMessage> for [u64; 9] {
    ghost from_gives = { λ plain fields. fields ≡ listed plain };

    fn from(plain: PlainMessage) -> [u64; 9] {
        let PlainMessage { kind, key } = plain;
        [
            kind.number,
            key.identifier,
            key.caller.ssi,
            key.caller.extension,
            key.called.ssi,
            key.called.extension,
            kind.priority,
            kind.service,
            kind.cause,
        ]
    }
}

impl From<[u64; 9]> for PlainMessage {
    ghost from_gives = { λ fields plain. plain ≡ unlisted fields };

    fn from(fields: [u64; 9]) -> PlainMessage {
        let [
            number,
            identifier,
            caller_ssi,
            caller_extension,
            called_ssi,
            called_extension,
            priority,
            service,
            cause,
        ] = fields;
        let caller = PlainParty {
            ssi: caller_ssi,
            extension: caller_extension,
        };
        let called = PlainParty {
            ssi: called_ssi,
            extension: called_extension,
        };
        PlainMessage {
            kind: PlainKind {
                number,
                priority,
                service,
                cause,
            },
            key: PlainKey {
                identifier,
                caller,
                called,
            },
        }
    }
}
