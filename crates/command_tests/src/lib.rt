// A reply written, and lines read as commands.
#![tactic(auto)]

#[cfg(test)]
mod tests {
    use command::{Command, Reply, Unreadable, write_reply};
    use std::test::Fail;

    #[test]
    fn reply(rt: HostRuntime) -> Result<(), Fail> {
        let mut out = String::new(rt.alloc());
        let reply = Reply {
            number: 0,
            notice: 'E',
            request: 1,
            identifier: 1,
            cause: 2,
        };
        write_reply(&mut out, reply)?;
        assert_eq!(rt; out.as_str(), "0 E 1 1 2\n");
        Ok(())
    }

    #[test]
    fn commands(rt: HostRuntime) {
        assert_eq!(rt;
            Command::try_from(b"q 1 9".as_slice()),
            Ok(Command::Request {
                caller: 1,
                identifier: 9
            })
        );
        assert_eq!(rt;
            Command::try_from(b" f ".as_slice()),
            Ok(Command::HearTerminating)
        );
        assert_eq!(rt; Command::try_from(b"f 1".as_slice()), Err(Unreadable));
        assert_eq!(rt; Command::try_from(b"q 1".as_slice()), Err(Unreadable));
        assert_eq!(rt; Command::try_from(b"fo".as_slice()), Err(Unreadable));
    }
}
