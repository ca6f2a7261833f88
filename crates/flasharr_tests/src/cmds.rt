//! What is decided of requests to stores that are larger than any process has here.
use fa_cmds::{Command, Decision, ReplyCode, Request, decide};
use std::test::Fail;

fn request(command: Command, offset: u64, length: u32) -> Request {
    Request {
        flags: 0,
        command,
        cookie: 1,
        offset,
        length,
    }
}

#[test]
fn decisions_by_range() -> Result<(), Fail> {
    let invalid = Decision::Refuse(ReplyCode::Invalid);
    let no_space = Decision::Refuse(ReplyCode::NoSpace);
    let longest = 33_554_432;
    let cases = [
        (Command::Read, 0, longest, u64::from(longest), Decision::Do),
        (Command::Read, 0, longest + 1, u64::MAX, invalid),
        (Command::Write, 0, longest, u64::MAX, Decision::Do),
        (Command::Read, u64::MAX - 511, 511, u64::MAX, Decision::Do),
        (Command::Read, u64::MAX - 511, 512, u64::MAX, invalid),
        (Command::Write, u64::MAX, 2, u64::MAX, no_space),
        (Command::Trim, 0, u32::MAX, u64::MAX, Decision::Do),
        (Command::WriteZeroes, 0, u32::MAX, u64::MAX, Decision::Do),
    ];
    for (command, offset, length, size, want) in cases {
        ensure!(decide(request(command, offset, length), size) == want, at command);
    }
    Ok(())
}
