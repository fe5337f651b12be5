// Runs of the terminating office over a shelf and over a trunk.
#![tactic(auto)]

#[cfg(test)]
mod tests {
    use fields::Refusal::{
        LinkFull, NothingThere, OutsideField, PartyBusy, SettingNotAllowed, UnknownParty,
    };
    use fields::{CallAttributes, Identifier, Identity, Key, Priority, Refusal, Service};
    use frame::Frames;
    use link::{Kind, Link, Message, NoCause, Places, Ring};
    use std::alloc::Global;
    use std::process::Abort;
    use std::test::Fail;
    use terminating::{LineSetting, Terminating, TerminatingSettings};

    // Line 2 has service 5 and line 3 service 6; six monitors may stand.
    fn office(heap: Global) -> Result<Terminating, Fail> {
        let two = LineSetting {
            identity: 2,
            service: 5,
        };
        let three = LineSetting {
            identity: 3,
            service: 6,
        };
        let settings = TerminatingSettings {
            lines: [two, three].to_vec(heap)?,
            places: 6,
        };
        Ok(Terminating::new(heap, &settings)?)
    }

    fn monitor(service: u64) -> Result<Kind, Fail> {
        Ok(Kind::Monitor(CallAttributes {
            priority: Priority::try_from(3)?,
            service: Service::try_from(service)?,
        }))
    }

    // A message of the caller's first request to the called party.
    fn message(kind: Kind, caller: u64, called: u64) -> Result<Message, Fail> {
        let key = Key {
            identifier: Identifier::try_from(1)?,
            caller: Identity::try_from(caller)?,
            called: Identity::try_from(called)?,
        };
        Ok(Message { kind, key })
    }

    // The kind of the oldest message, which is taken.
    fn taken<L: Link>(link: &mut L) -> Option<Kind> {
        link.take().ok().map(|message| message.kind)
    }

    // Both links, and the office between them.
    #[derive(Debug, Drop)]
    struct Yard<L: Link> {
        office: Terminating,
        out: L,
        back: L,
    }

    // A call of the office. Closures would each have a type of its own, and fit no table.
    #[derive(Clone, Copy, PartialEq, Eq, Debug)]
    enum Act {
        Line(u64, u64),
        Serve(u64),
        Outcome(u64, u64),
        // sent on the link out, by a caller to a called party, and heard
        Say(Kind, u64, u64),
        Hear,
    }

    // What is done, what it answers, and the message that then comes back.
    #[derive(Clone, Copy, PartialEq, Eq, Debug)]
    struct Row(Act, Result<(), Refusal>, Option<Kind>);

    // The act answers so.
    fn does<L: Link>(
        rt: &impl Abort,
        yard: &mut Yard<L>,
        act: Act,
        answer: Result<(), Refusal>,
    ) -> Result<(), Fail> {
        let found = match act {
            Act::Line(line, mark) => yard.office.line(line, mark),
            Act::Serve(line) => yard.office.serve(line, &mut yard.back),
            Act::Outcome(line, outcome) => yard.office.outcome(line, outcome, &mut yard.back),
            Act::Say(kind, caller, called) => {
                yard.out.send(message(kind, caller, called)?)?;
                yard.office.hear(&mut yard.out, &mut yard.back)
            }
            Act::Hear => yard.office.hear(&mut yard.out, &mut yard.back),
        };
        assert_eq!(rt; found, answer);
        Ok(())
    }

    fn run<L: Link>(rt: &impl Abort, yard: &mut Yard<L>, rows: &[Row]) -> Result<(), Fail> {
        for Row(act, answer, reply) in rows {
            does(rt, yard, *act, *answer)?;
            assert_eq!(rt; taken(&mut yard.back), *reply);
        }
        Ok(())
    }

    // Numbers outside their fields, lines that are not here, and nothing to hear.
    fn refuses<L: Link>(rt: &impl Abort, yard: &mut Yard<L>) -> Result<(), Fail> {
        let rows = [
            Row(Act::Line(4, 2), Err(OutsideField), None),
            Row(Act::Line(4, 1), Err(UnknownParty), None),
            Row(Act::Serve(281474976710656), Err(OutsideField), None),
            Row(Act::Serve(4), Err(UnknownParty), None),
            Row(Act::Outcome(4, 4), Err(OutsideField), None),
            Row(Act::Outcome(4, 3), Err(UnknownParty), None),
            Row(Act::Outcome(2, 3), Err(NothingThere), None),
            Row(Act::Hear, Err(NothingThere), None),
        ];
        run(rt, yard, &rows)
    }

    // MONITOR: stored, dropped, and each cause of NO.
    fn admits<L: Link>(rt: &impl Abort, yard: &mut Yard<L>) -> Result<(), Fail> {
        let (five, six) = (monitor(5)?, monitor(6)?);
        let rows = [
            Row(Act::Say(five, 10, 2), Ok(()), Some(Kind::Yes)),
            Row(Act::Say(five, 11, 2), Ok(()), Some(Kind::Yes)),
            Row(Act::Say(five, 11, 2), Ok(()), None),
            Row(Act::Say(five, 12, 2), Ok(()), Some(Kind::Yes)),
            Row(Act::Say(five, 13, 2), Ok(()), Some(Kind::Yes)),
            Row(Act::Say(five, 14, 2), Ok(()), Some(Kind::Yes)),
            Row(
                Act::Say(five, 15, 4),
                Ok(()),
                Some(Kind::No(NoCause::NoSuchLine)),
            ),
            Row(
                Act::Say(five, 15, 3),
                Ok(()),
                Some(Kind::No(NoCause::OtherService)),
            ),
            Row(
                Act::Say(five, 15, 2),
                Ok(()),
                Some(Kind::No(NoCause::QueueFull)),
            ),
            Row(Act::Say(six, 15, 3), Ok(()), Some(Kind::Yes)),
            Row(
                Act::Say(six, 16, 3),
                Ok(()),
                Some(Kind::No(NoCause::TableFull)),
            ),
        ];
        run(rt, yard, &rows)
    }

    // The earliest is offered the line, is suspended and resumed, and keeps its place.
    fn offers<L: Link>(rt: &impl Abort, yard: &mut Yard<L>) -> Result<(), Fail> {
        let rows = [
            Row(Act::Serve(2), Ok(()), Some(Kind::Free)),
            Row(Act::Serve(2), Err(NothingThere), None),
            Row(Act::Say(Kind::Suspend, 10, 2), Ok(()), None),
            Row(Act::Say(Kind::Setup, 10, 2), Ok(()), None),
            Row(Act::Say(Kind::Resume, 10, 2), Ok(()), None),
            Row(Act::Serve(2), Ok(()), Some(Kind::Free)),
            Row(Act::Line(2, 1), Ok(()), None),
            Row(Act::Say(Kind::Setup, 11, 2), Ok(()), None),
            Row(Act::Say(Kind::Setup, 10, 2), Ok(()), Some(Kind::BusyAgain)),
            Row(Act::Serve(2), Err(PartyBusy), None),
        ];
        run(rt, yard, &rows)
    }

    // The caller's call rings at the line, and this is its outcome.
    fn rings<L: Link>(
        rt: &impl Abort,
        yard: &mut Yard<L>,
        caller: u64,
        outcome: u64,
        told: Kind,
    ) -> Result<(), Fail> {
        let rows = [
            Row(Act::Line(2, 0), Ok(()), None),
            Row(Act::Serve(2), Ok(()), Some(Kind::Free)),
            Row(Act::Say(Kind::Setup, caller, 2), Ok(()), None),
            Row(Act::Serve(2), Err(NothingThere), None),
            Row(Act::Outcome(2, outcome), Ok(()), Some(told)),
        ];
        run(rt, yard, &rows)
    }

    // CLOSE is answered whether a monitor stands or not; what fits no row is dropped.
    fn closes<L: Link>(rt: &impl Abort, yard: &mut Yard<L>) -> Result<(), Fail> {
        let rows = [
            Row(Act::Say(Kind::Close, 12, 2), Ok(()), Some(Kind::LetGo)),
            Row(Act::Say(Kind::Close, 12, 2), Ok(()), Some(Kind::LetGo)),
            Row(Act::Say(Kind::Setup, 13, 2), Ok(()), None),
            Row(Act::Say(Kind::LetGo, 13, 2), Ok(()), None),
        ];
        run(rt, yard, &rows)
    }

    // Each outcome: the caller that met a busy line is still the first.
    fn ends<L: Link>(rt: &impl Abort, yard: &mut Yard<L>) -> Result<(), Fail> {
        rings(rt, yard, 10, 2, Kind::BusyAgain)?;
        does(rt, yard, Act::Serve(2), Err(PartyBusy))?;
        rings(rt, yard, 10, 1, Kind::Connected)?;
        does(rt, yard, Act::Serve(2), Err(PartyBusy))?;
        rings(rt, yard, 11, 3, Kind::Failed)
    }

    // With the link back full: 8, and all stays until there is room.
    fn waits<L: Link>(rt: &impl Abort, yard: &mut Yard<L>) -> Result<(), Fail> {
        let ringing = [
            Row(Act::Line(2, 0), Ok(()), None),
            Row(Act::Serve(2), Ok(()), Some(Kind::Free)),
            Row(Act::Say(Kind::Setup, 13, 2), Ok(()), None),
        ];
        run(rt, yard, &ringing)?;
        let filler = message(Kind::Yes, 9, 9)?;
        yard.back.send(filler)?;
        yard.back.send(filler)?;
        does(rt, yard, Act::Serve(3), Err(LinkFull))?;
        does(rt, yard, Act::Outcome(2, 1), Err(LinkFull))?;
        does(rt, yard, Act::Say(Kind::Close, 14, 2), Err(LinkFull))?;
        let later = [
            Row(Act::Hear, Err(LinkFull), Some(Kind::Yes)),
            Row(Act::Hear, Ok(()), Some(Kind::Yes)),
            Row(Act::Hear, Err(NothingThere), Some(Kind::LetGo)),
            Row(Act::Outcome(2, 1), Ok(()), Some(Kind::Connected)),
        ];
        run(rt, yard, &later)
    }

    fn story<L: Link>(rt: &impl Abort, yard: &mut Yard<L>) -> Result<(), Fail> {
        refuses(rt, yard)?;
        admits(rt, yard)?;
        offers(rt, yard)?;
        ends(rt, yard)?;
        closes(rt, yard)?;
        waits(rt, yard)
    }

    // The story over two links with these places.
    fn over<P: Places + Drop>(rt: &impl Abort, heap: Global, out: P, back: P) -> Result<(), Fail> {
        let (Ok(out), Ok(back)) = (Ring::new(out), Ring::new(back)) else {
            return Err(Fail::new("no link"));
        };
        let office = office(heap)?;
        story(rt, &mut Yard { office, out, back })
    }

    #[test]
    fn over_shelves(rt: HostRuntime) -> Result<(), Fail> {
        let nobody = message(Kind::LetGo, 0, 0)?;
        let out = vec![in rt.alloc(); nobody; 2]?;
        let back = vec![in rt.alloc(); nobody; 2]?;
        over(&rt, rt.alloc(), out, back)
    }

    #[test]
    fn over_trunks(rt: HostRuntime) -> Result<(), Fail> {
        let out = Frames(vec![in rt.alloc(); 0u8; 30]?);
        let back = Frames(vec![in rt.alloc(); 0u8; 30]?);
        over(&rt, rt.alloc(), out, back)
    }

    // An office with these lines and places is made, or refused so.
    fn makes(
        rt: &impl Abort,
        heap: Global,
        lines: &[LineSetting],
        places: u64,
        answer: Result<(), Refusal>,
    ) -> Result<(), Fail> {
        let settings = TerminatingSettings {
            lines: lines.to_vec(heap)?,
            places,
        };
        let found = Terminating::new(heap, &settings).map(|_| ());
        assert_eq!(rt; found, answer);
        Ok(())
    }

    #[test]
    fn settings(rt: HostRuntime) -> Result<(), Fail> {
        let heap = rt.alloc();
        let (identity, service) = (2, 5);
        let line = LineSetting { identity, service };
        makes(&rt, heap, &[line], 256, Ok(()))?;
        makes(&rt, heap, &[line], 257, Err(SettingNotAllowed))?;
        makes(&rt, heap, &[line, line], 1, Err(SettingNotAllowed))
    }
}
