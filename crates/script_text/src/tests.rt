//! Lines and the steps that they are.

use crate::{Step, block_len, command_line, read_step};
use base_names::{Owner, Role};
use disk_model::Image;
use std::test::Fail;

#[test]
fn lines_are_steps(rt: HostRuntime) -> Result<(), Fail> {
    let ada = Owner::read(b"ada").ok_or("an owner")?;
    let limits = Step::Limits {
        commands: u32::MAX,
        bytes: 0,
        journal: 8,
    };
    let cases: [(&[u8], Option<Step>); 30] = [
        (b"LIMITS 4294967295 0 8", Some(limits)),
        (b"LIMITS 4294967296 0 8", None),
        (b"LIMITS 1 18446744073709551616 8", None),
        (b"LIMITS 1 1 7", None),
        (b"LIMITS 1 1 1000000000001", None),
        (b"LIMITS 1 1 8 8", None),
        (
            b"SEAT 01 ada STANDARD",
            Some(Step::Seat(1, ada, Role::Standard)),
        ),
        (
            b" SEAT\t255  ada ADMIN ",
            Some(Step::Seat(255, ada, Role::Admin)),
        ),
        (b"SEAT 0 ada ADMIN", None),
        (b"SEAT 256 ada ADMIN", None),
        (b"SEAT 1 Ada ADMIN", None),
        (b"SEAT 1 ada admin", None),
        (b"SEAT 1 ada", None),
        (b"AT 1", Some(Step::At(1))),
        (b"AT 2 BATCH", Some(Step::At(2))),
        (b"AT BATCH", None),
        (b"AT", None),
        (b"HANG 3", Some(Step::Hang(3))),
        (b"HANG 3 3", None),
        (b"FAULT 18446744073709551615", Some(Step::Fault(u64::MAX))),
        (b"FAULT 18446744073709551616", None),
        (b"FAULT 0", None),
        (b"STOP 0 OLD", Some(Step::Stop(0, Image::Old))),
        (b"STOP 1 NEW", Some(Step::Stop(1, Image::New))),
        (b"STOP 1 FILL 007", Some(Step::Stop(1, Image::Fill(7)))),
        (b"STOP 1 FILL 256", None),
        (b"STOP 1 FILL", None),
        (b"STOP 1 OLD 1", None),
        (b"OPEN", Some(Step::Open)),
        (b"", None),
    ];
    for (line, step) in cases {
        assert!(rt; read_step(line) == step);
    }
    Ok(())
}

#[test]
fn a_command_line_stands_behind_its_seat(rt: HostRuntime) {
    assert_eq!(rt; command_line(b"AT 1  READ 3 "), b"  READ 3 ".as_slice());
    assert_eq!(rt; command_line(b"AT 1"), b"".as_slice());
    assert!(rt; block_len(b"AT 1 READ 3") == Some(3));
    assert!(rt; block_len(b"AT 1 READ 1048577").is_none());
    assert!(rt; block_len(b"READ 3").is_none());
    assert!(rt; block_len(b"AT 0 READ 3").is_none());
}
