//! Words of the profile, written by hand.
use bt_base::FormulaFault;
use bt_rows::job::JobState;
use bt_rows::member::Member;
use bt_rows::refusal::{Refusal, Table};
use bt_rows::run::Ending;
use bt_rows::task::How;
use std::alloc::Global;
use std::test::Fail;
use wire_words::{node_id, number_of, push_how, values_of};

/// The values of the refusal, each with a comma after it.
fn joined(alloc: Global, refusal: Refusal) -> Result<String, Fail> {
    let mut out = String::new(alloc);
    for value in values_of(alloc, &refusal)?.as_slice() {
        out.push_str(value.as_str())?;
        out.push_str(",")?;
    }
    Ok(out)
}

#[test]
fn words_are_those_of_the_profile(rt: HostRuntime) -> Result<(), Fail> {
    let alloc = rt.alloc();
    assert_eq!(rt;
        node_id(alloc, 18446744073709551615)?.as_str(),
        "node-18446744073709551615"
    );
    assert_eq!(rt; number_of(&Refusal::TerminationEngaged), 38);
    let cases = [
        (
            Refusal::InvalidPropertyValue(Member::MaxTaskRetryCount),
            "maxTaskRetryCount,",
        ),
        (Refusal::AutoscaleTooSoon(29999), "29999,"),
        (
            Refusal::FormulaRefused(FormulaFault::TooDeep(68)),
            "TooDeep,68,",
        ),
        (
            Refusal::JobStateRefuses(JobState::Terminating),
            "terminating,",
        ),
        (Refusal::TableFull(Table::Pools, 64), "pools,64,"),
        (Refusal::SampleTooOld(0), "0,"),
        (Refusal::JobNotFound, ""),
    ];
    for (refusal, values) in cases {
        assert_eq!(rt; joined(alloc, refusal)?.as_str(), values);
    }
    let mut exits = String::new(alloc);
    for how in [
        How::Ended(Ending::Code(-255)),
        How::Ended(Ending::NotStarted),
        How::Wall,
    ] {
        push_how(&mut exits, how)?;
        exits.push_str(" ")?;
    }
    assert_eq!(rt; exits.as_str(), "-255 notstarted wall ");
    Ok(())
}
