//! Tests of times: values from outside.
use bt_base::Fail;
use bt_times::{TimeFault, civil, duration_ms, instant};

#[test]
fn durations_are_read(rt: HostRuntime) {
    let table = [
        ("PT15M", Ok(Some(900_000))),
        ("PT0S", Ok(Some(0))),
        ("PT1M30.5S", Ok(Some(90_500))),
        ("P7D", Ok(Some(604_800_000))),
        ("P1W", Ok(Some(604_800_000))),
        ("P0Y1D", Ok(Some(86_400_000))),
        ("PT0.0019S", Ok(Some(1))),
        ("P36500D", Ok(Some(3_153_600_000_000))),
        ("P36500DT1S", Err(Fail::Why(TimeFault::OutOfRange))),
        ("P10675199DT2H48M5.4775807S", Ok(None)),
        ("P1M", Err(Fail::Why(TimeFault::BadText))),
        ("-PT1S", Err(Fail::Why(TimeFault::BadText))),
        ("pt1s", Err(Fail::Why(TimeFault::BadText))),
    ];
    for (text, wanted) in table {
        assert_eq!(rt; duration_ms(text), wanted, "of {text}");
    }
}

#[test]
fn other_texts_are_no_durations(rt: HostRuntime) {
    let texts = [
        "",
        "P",
        "PT",
        "P1DT",
        "P1Y",
        "15M",
        "PT1.M",
        "PT1M1H",
        "PT-1M",
        " PT5M",
        "PT5M ",
        "xPT5M",
        "P10675199DT2H48M5.4775808S",
    ];
    for text in texts {
        assert_eq!(rt;
            duration_ms(text),
            Err(Fail::Why(TimeFault::BadText)),
            "of {text}"
        );
    }
}

#[test]
fn instants_are_read(rt: HostRuntime) {
    let table = [
        ("1970-01-02", Ok(864_000_000_000)),
        ("1970-01-01T00:00:01.00000019Z", Ok(10_000_001)),
        (
            "Sat, 13 Jul 2024 15:09:59 -0400",
            Ok(17_208_977_990_000_000),
        ),
        ("9999-12-31", Ok(2_534_022_144_000_000_000)),
        ("1969-12-31", Err(Fail::Why(TimeFault::OutOfRange))),
        ("9999-12-31T00:00:00Z", Err(Fail::Why(TimeFault::BadText))),
        (
            "Sun, 13 Jul 2024 15:09:59 -0400",
            Err(Fail::Why(TimeFault::BadText)),
        ),
        ("now", Err(Fail::Why(TimeFault::BadText))),
    ];
    for (text, wanted) in table {
        assert_eq!(rt; instant(text), wanted, "of {text}");
    }
}

#[test]
fn calendars_show_the_parts_of_dates(rt: HostRuntime) {
    let leap_day = civil(17_091_648_000_000_000 + 864_000_000_000 - 1);
    assert_eq!(rt; leap_day.year, 2024);
    assert_eq!(rt; leap_day.month, 2);
    assert_eq!(rt; leap_day.day, 29);
    assert_eq!(rt; leap_day.weekday, 4);
    assert_eq!(rt; leap_day.hour, 23);
    assert_eq!(rt; leap_day.minute, 59);
    assert_eq!(rt; leap_day.second, 59);
    let last = civil(2_534_023_007_999_999_999);
    assert_eq!(rt; last.year, 9999);
    assert_eq!(rt; last.day, 31);
    assert_eq!(rt; civil(0).weekday, 4);
}
