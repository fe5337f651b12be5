// Worked examples of the codec: how long PDUs are, and one fault of each kind.
#![tactic(auto)]

#[cfg(test)]
mod tests {
    use bits::{BitBuffer, ElementName, Fault, Layer, Reason};
    use element::{CalledType, RejectCause, RetainCapability};
    use fields::{
        AreaSelection, CallIdentifier, Identifier, Identity, Key, Priority, Refusal, Service,
    };
    use pdu::{
        Few, ListedRequest, Listing, Monitor, MonitorAck, Outcome, Pdu, RequestAccepted,
        RequestRejected,
    };
    use pdu_reading::read_pdu;
    use pdu_writing::write_pdu;
    use std::process::Abort;
    use std::test::Fail;

    // A member that no copy can be made of.
    #[derive(PartialEq, Eq, Debug, Drop)]
    struct NotCopy(u8);

    fn key() -> Result<Key, Refusal> {
        Ok(Key {
            identifier: Identifier::try_from(1)?,
            caller: Identity::try_from(1 << 24)?,
            called: Identity::try_from(2 << 24)?,
        })
    }

    fn monitor_ack(
        outcome: Outcome,
        retain_capability: Option<RetainCapability>,
    ) -> Result<Pdu, Refusal> {
        Ok(Pdu::MonitorAck(MonitorAck {
            key: key()?,
            outcome,
            call_priority: Priority::try_from(3)?,
            basic_service: Service::try_from(5)?,
            area_selection: AreaSelection::try_from(0)?,
            retain_capability,
        }))
    }

    // Writes the PDU and reads it back.
    fn has_bits(rt: &impl Abort, pdu: &Pdu, bits: usize) -> Result<(), Fail> {
        let mut out = [255u8; 34];
        let count = write_pdu(pdu, &mut out)?;
        assert_eq!(rt; count, bits);
        let bytes = bits.div_ceil(8);
        if bytes > 34 {
            return Err(Fail::new("longer than any PDU"));
        }
        assert!(rt; read_pdu(&out[..bytes], count)? == *pdu);
        Ok(())
    }

    #[test]
    fn buffers_of_the_same_bits_are_equal(rt: HostRuntime) -> Result<(), Fail> {
        let mut at_once = BitBuffer::new();
        at_once.push(3, 5);
        let mut in_two = BitBuffer::new();
        in_two.push(1, 1);
        in_two.push(2, 1);
        assert!(rt; at_once == in_two);
        in_two.push(1, 0);
        assert!(rt; at_once != in_two);
        let mut out = [255u8; 2];
        assert_eq!(rt; in_two.put_out(&mut out), Ok(4));
        assert_eq!(rt; out, [0xa0, 255]);
        Ok(())
    }

    #[test]
    fn recall_has_14_bits(rt: HostRuntime) -> Result<(), Fail> {
        let pdu = Pdu::Recall(Identifier::try_from(1)?);
        let mut out = [255u8; 3];
        assert_eq!(rt; write_pdu(&pdu, &mut out)?, 14);
        assert_eq!(rt; out, [0x35, 0x24, 255]);
        let mut short = [255u8; 1];
        assert_eq!(rt; write_pdu(&pdu, &mut short), Err(Refusal::TooLittleRoom));
        assert_eq!(rt; short, [255]);
        Ok(())
    }

    #[test]
    fn monitors(rt: HostRuntime) -> Result<(), Fail> {
        let monitor = Pdu::Monitor(Monitor {
            key: key()?,
            call_priority: Priority::try_from(3)?,
            basic_service: Service::try_from(5)?,
            retain_capability: RetainCapability::Retains,
        });
        has_bits(&rt, &monitor, 124)?;
        has_bits(&rt, &monitor_ack(Ok(()), None)?, 128)?;
        has_bits(
            &rt,
            &monitor_ack(Err(RejectCause::TooManyRemotely), None)?,
            133,
        )?;
        has_bits(
            &rt,
            &monitor_ack(Ok(()), Some(RetainCapability::Retains))?,
            131,
        )
    }

    #[test]
    fn request_acks(rt: HostRuntime) -> Result<(), Fail> {
        let accepted = RequestAccepted {
            ccbsi: Identifier::try_from(1)?,
            call_identifier: CallIdentifier::try_from(9)?,
            call_priority: Priority::try_from(3)?,
            basic_service: Service::try_from(5)?,
            called_type: CalledType::Tsi,
            called: Identity::try_from(2 << 24)?,
        };
        has_bits(&rt, &Pdu::RequestAck(Ok(accepted)), 91)?;
        let rejected = RequestRejected {
            call_identifier: CallIdentifier::try_from(9)?,
            call_priority: Priority::try_from(3)?,
            basic_service: Service::try_from(5)?,
            reject_cause: RejectCause::NotSubscribed,
            called_type: CalledType::Tsi,
            called: Identity::try_from(2 << 24)?,
        };
        has_bits(&rt, &Pdu::RequestAck(Err(rejected)), 93)
    }

    #[test]
    fn longest_list_has_272_bits(rt: HostRuntime) -> Result<(), Fail> {
        let mut few = Few::new();
        for number in 1..6 {
            few.push(ListedRequest {
                ccbsi: Identifier::try_from(number)?,
                called: Identity::try_from(number << 24)?,
            });
        }
        let pdu = Pdu::ListAck(Ok(Listing::Details(few)));
        has_bits(&rt, &pdu, 272)?;
        assert!(rt; pdu.clone()? == pdu);
        Ok(())
    }

    #[test]
    fn members_by_reference(rt: HostRuntime) -> Result<(), Fail> {
        let mut few = Few::new();
        few.push(NotCopy(7));
        few.push(NotCopy(8));
        assert_eq!(rt; few.get(0), Some(&NotCopy(7)));
        assert_eq!(rt; few.get(1), Some(&NotCopy(8)));
        assert_eq!(rt; few.get(2), None);
        Ok(())
    }

    #[test]
    fn faults(rt: HostRuntime) -> Result<(), Fail> {
        let cut = Fault {
            reason: Reason::EndsInside,
            layer: Layer::Bits,
            element: Some(ElementName::Ccbsi),
            position: 11,
        };
        assert_eq!(rt; read_pdu(&[0x35, 0x24], 13), Err(cut));
        let unknown_type = Fault {
            reason: Reason::NotListed,
            layer: Layer::Element,
            element: Some(ElementName::PduType),
            position: 6,
        };
        assert_eq!(rt; read_pdu(&[0x34, 0x48], 14), Err(unknown_type));
        let padded = Fault {
            reason: Reason::LeftOver,
            layer: Layer::Pdu,
            element: None,
            position: 15,
        };
        assert_eq!(rt; read_pdu(&[0x35, 0x25], 14), Err(padded));
        let miscounted = Fault {
            reason: Reason::EndsInside,
            layer: Layer::Pdu,
            element: None,
            position: usize::MAX,
        };
        assert_eq!(rt; read_pdu(&[0x35, 0x24], usize::MAX), Err(miscounted));
        Ok(())
    }

    #[test]
    fn present_but_none(rt: HostRuntime) -> Result<(), Fail> {
        let mut out = [0u8; 17];
        let _ = write_pdu(
            &monitor_ack(Ok(()), Some(RetainCapability::Retains))?,
            &mut out,
        )?;
        // the presence bit, after the bit 127 that announces the optional part
        out[16] = 0x20;
        let none = Fault {
            reason: Reason::NotListed,
            layer: Layer::Pdu,
            element: Some(ElementName::Optional),
            position: 127,
        };
        assert_eq!(rt; read_pdu(&out, 131), Err(none));
        Ok(())
    }
}
