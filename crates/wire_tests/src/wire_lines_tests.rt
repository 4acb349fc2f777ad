//! Lines with samples, written by hand from the profile.
use bt_rows::event::EventKind;
use bt_rows::member::Member;
use bt_rows::refusal::Refusal;
use std::alloc::Global;
use std::test::Fail;
use wire_lines::{LineRequest, read_line};

/// Lines, and the percentage of the sample in millionths.
const SAMPLES: &[(&[u8], i64)] = &[
    (b"0 sample P-1 0", 0),
    (b"0 sample P-1 007.50", 7_500_000),
    (b"253402300799999 sample P-1 99.999999", 99_999_999),
    (b"00 sample P-1 100", 100_000_000),
    (b"0 sample P-1 100.0000009", 100_000_000),
];

/// The percentage of a line that is a sample of the pool `P-1`.
fn percentage(alloc: Global, line: &[u8]) -> Option<i64> {
    let Ok(LineRequest::Call(_, event)) = read_line(alloc, line) else {
        return None;
    };
    match event.kind() {
        EventKind::Sample(pool, value) if pool.as_str() == "P-1" => Some(value.millionths()),
        _ => None,
    }
}

#[test]
fn samples_are_read(rt: HostRuntime) -> Result<(), Fail> {
    for (line, millionths) in SAMPLES {
        assert!(rt;
            percentage(rt.alloc(), line) == Some(*millionths),
            "{line:?}"
        );
    }
    Ok(())
}

/// Lines, and the member for which they are refused, None if they are not valid requests.
const REFUSED: &[(&[u8], Option<Member>)] = &[
    (b"0 sample", None),
    (b"0 sample ", None),
    (b"0 sample p", None),
    (b"0 sample p 1 2", None),
    (b"0 sample p 1 ", None),
    (b"0 sample p.p 1 2", None),
    (b"0 sample \xff 1", None),
    (b"x sample p 1", None),
    (b"0 sample p.p 101", Some(Member::Id)),
    (b"0 sample  101", Some(Member::Id)),
    (b"0 sample p ", Some(Member::Value)),
    (b"0 sample p 100.000001", Some(Member::Value)),
    (b"0 sample p -1", Some(Member::Value)),
    (b"0 sample p +1", Some(Member::Value)),
    (b"0 sample p 1.", Some(Member::Value)),
    (b"0 sample p .5", Some(Member::Value)),
    (b"0 sample p 1e1", Some(Member::Value)),
    (b"0 sample p 5%", Some(Member::Value)),
    (b"0 sample p 10000000000000", Some(Member::Value)),
    (b"0 sample p \xff", Some(Member::Value)),
];

/// The refusal with this member, or the one of a line that is not a valid request.
fn refusal(member: Option<Member>) -> Refusal {
    match member {
        None => Refusal::UnreadableBody,
        Some(member) => Refusal::InvalidPropertyValue(member),
    }
}

#[test]
fn other_samples_are_refused(rt: HostRuntime) -> Result<(), Fail> {
    for (line, member) in REFUSED {
        let found = match read_line(rt.alloc(), line) {
            Err(bt_base::Fail::Why(why)) => why == refusal(*member),
            _ => false,
        };
        assert!(rt; found, "{line:?}");
    }
    Ok(())
}
