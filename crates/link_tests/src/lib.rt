// Both links and the frame on examples.
#![tactic(auto)]

#[cfg(test)]
mod tests {
    use fields::{CallAttributes, Identifier, Identity, Key, Priority, Refusal, Service};
    use frame::{Frames, Trunk, frame, message, send_frame};
    use link::{Kind, Link, Message, Places, Ring, Shelf, is_empty};
    use std::process::Abort;
    use std::test::Fail;

    const SAMPLE: [u8; 15] = [0x12, 0, 0, 2, 0, 0, 0, 0, 0, 4, 0, 0, 0, 0x60, 0xa0];

    // As in `pdu_tests` and not shared: a crate for one function would be no plainer.
    fn key(caller: u64) -> Result<Key, Refusal> {
        Ok(Key {
            identifier: Identifier::try_from(1)?,
            caller: Identity::try_from(caller)?,
            called: Identity::try_from(2 << 24)?,
        })
    }

    fn numbered(caller: u64) -> Result<Message, Refusal> {
        Ok(Message {
            kind: Kind::Setup,
            key: key(caller)?,
        })
    }

    fn sample() -> Result<Message, Refusal> {
        let call = CallAttributes {
            priority: Priority::try_from(3)?,
            service: Service::try_from(5)?,
        };
        Ok(Message {
            kind: Kind::Monitor(call),
            key: key(1 << 24)?,
        })
    }

    fn sends<L: Link>(link: &mut L, caller: u64) -> Result<(), Fail> {
        link.send(numbered(caller)?)?;
        Ok(())
    }

    fn takes<L: Link>(rt: &impl Abort, link: &mut L, caller: u64) -> Result<(), Fail> {
        assert_eq!(rt; link.first()?, numbered(caller)?);
        assert_eq!(rt; link.take()?, numbered(caller)?);
        Ok(())
    }

    // Fills a link of two places and empties it, again and again, and answers its places.
    fn goes_round<P: Places + Drop>(rt: &impl Abort, places: P) -> Result<P, Fail> {
        let Ok(mut link) = Ring::new(places) else {
            return Err(Fail::new("no link"));
        };
        assert_eq!(rt; link.free(), 2);
        for n in 1..6 {
            assert!(rt; is_empty(&link));
            sends(&mut link, n)?;
            sends(&mut link, n + 100)?;
            assert_eq!(rt; link.send(numbered(9)?), Err(Refusal::LinkFull));
            assert_eq!(rt; link.free(), 0);
            takes(rt, &mut link, n)?;
            sends(&mut link, n + 200)?;
            takes(rt, &mut link, n + 100)?;
            takes(rt, &mut link, n + 200)?;
            assert_eq!(rt; link.take(), Err(Refusal::NothingThere));
        }
        Ok(link.into_places())
    }

    #[test]
    fn shelf_goes_round(rt: HostRuntime) -> Result<(), Fail> {
        let places = goes_round(&rt, vec![in rt.alloc(); numbered(0)?; 2]?)?;
        assert_eq!(rt; places.len(), 2);
        Ok(())
    }

    #[test]
    fn trunk_goes_round(rt: HostRuntime) -> Result<(), Fail> {
        let Frames(bytes) = goes_round(&rt, Frames(vec![in rt.alloc(); 255u8; 37]?))?;
        assert!(rt; bytes.len() == 37);
        assert!(rt; bytes[29] != 255);
        assert!(rt; bytes[30..].iter().all(|&byte| byte == 255));
        Ok(())
    }

    #[test]
    fn shelf_capacities(rt: HostRuntime) -> Result<(), Fail> {
        for places in [1, 4096] {
            let made = Shelf::new(vec![in rt.alloc(); numbered(0)?; places]?);
            assert_eq!(rt; made.ok().map(|shelf| shelf.free()), Some(places));
        }
        for places in [0, 4097] {
            let made = Shelf::new(vec![in rt.alloc(); numbered(0)?; places]?);
            let back = made.err().map(|back| (back.refusal, back.given.len()));
            assert_eq!(rt; back, Some((Refusal::SettingNotAllowed, places)));
        }
        Ok(())
    }

    #[test]
    fn trunk_capacities(rt: HostRuntime) -> Result<(), Fail> {
        for (bytes, places) in [(15, 1), (61454, 4096)] {
            let made = Trunk::new(Frames(vec![in rt.alloc(); 0u8; bytes]?));
            assert_eq!(rt; made.ok().map(|trunk| trunk.free()), Some(places));
        }
        for bytes in [14, 61455] {
            let made = Trunk::new(Frames(vec![in rt.alloc(); 0u8; bytes]?));
            let back = made.err().map(|back| (back.refusal, back.given.0.len()));
            assert_eq!(rt; back, Some((Refusal::SettingNotAllowed, bytes)));
        }
        Ok(())
    }

    #[test]
    fn sample_frame(rt: HostRuntime) -> Result<(), Fail> {
        assert!(rt; frame(sample()?) == SAMPLE);
        assert_eq!(rt; message(SAMPLE), Ok(sample()?));
        Ok(())
    }

    #[test]
    fn frames_from_outside(rt: HostRuntime) -> Result<(), Fail> {
        let Ok(mut shelf) = Shelf::new(vec![in rt.alloc(); numbered(0)?; 1]?) else {
            return Err(Fail::new("no shelf"));
        };
        assert_eq!(rt; send_frame(&mut shelf, [0; 15]), Err(Refusal::OutsideField));
        assert!(rt; is_empty(&shelf));
        assert_eq!(rt; send_frame(&mut shelf, SAMPLE), Ok(()));
        assert_eq!(rt; send_frame(&mut shelf, SAMPLE), Err(Refusal::LinkFull));
        assert_eq!(rt; shelf.take(), Ok(sample()?));
        Ok(())
    }
}
