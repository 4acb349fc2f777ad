//! What formulas write, and with which status. Expected texts are worked out by hand from the language's rules.
use crate::run_tests::{gives, sure};
use batch_cli::Status;
use cli_formula::Position;
use std::alloc::{AllocError, Global};
use std::test::Fail;

/// The status of a fault at this line and column.
fn fault_at(line: usize, column: usize) -> Status {
    Status::FormulaError(Position { line, column })
}

const PLAIN: &str =
    "$TargetDedicatedNodes=0;$TargetLowPriorityNodes=0;$NodeDeallocationOption=requeue";

/// A pool that is scaled by its tasks.
pub const SCALED: &str = "$samples = $ActiveTasks.GetSamplePercent(TimeInterval_Minute * 15); \
    $tasks = $samples < 70 ? max(0, $ActiveTasks.GetSample(1)) : \
    max($ActiveTasks.GetSample(1), avg($ActiveTasks.GetSample(TimeInterval_Minute * 15))); \
    $targetVMs = $tasks > 0 ? $tasks : max(0, $TargetDedicatedNodes / 2); \
    cappedPoolSize = 20; $TargetDedicatedNodes = max(0, min($targetVMs, cappedPoolSize)); \
    $NodeDeallocationOption = taskcompletion; now = time();";

/// What it gives at the last moment, with a target of 4.
pub const SCALED_OUTPUT: &str = "$TargetDedicatedNodes=2;$TargetLowPriorityNodes=0;\
    $NodeDeallocationOption=taskcompletion;$samples=0;$tasks=0;$targetVMs=2;$cappedPoolSize=20;\
    $now=9999-12-31T23:59:59.9990000Z\n";

#[test]
fn faults_have_names_and_places(rt: HostRuntime) -> Result<(), Fail> {
    let rows: [(&[u8], usize, usize, &str); 23] = [
        (b"x = 1/0;", 1, 6, "error DivideByZero 5\n"),
        (b"x = 1;\n  y = x +;", 2, 10, "error UnexpectedToken 16\n"),
        (b"x = ", 1, 5, "error UnexpectedToken 4\n"),
        (b"x = 1; x = \"a\";", 1, 8, "error TypeMismatch 7\n"),
        (b"x = @", 1, 5, "error BadCharacter 4\n"),
        (b"x = @\xff", 1, 6, "error BadCharacter 5\n"),
        (b"\xc3\x28", 1, 1, "error BadCharacter 0\n"),
        (b"x = \"\xc3\xa9\xe2\x82", 1, 8, "error BadCharacter 7\n"),
        (b"x = \"a\n\xff", 2, 1, "error BadCharacter 7\n"),
        (b"x = \"\xc3\xa9\"; y", 1, 11, "error UnknownName 10\n"),
        (b"max = foo(1 + \"a\")", 1, 13, "error TypeMismatch 12\n"),
        (b"max = foo(1)", 1, 7, "error UnknownName 6\n"),
        (b"max = len(1)", 1, 7, "error WrongArguments 6\n"),
        (b"max = 1", 1, 1, "error ReadOnly 0\n"),
        (b"x = stop()", 1, 1, "error TypeMismatch 0\n"),
        (b"x = [stop()]", 1, 5, "error TypeMismatch 4\n"),
        (b"x = \"a\" ? 1 : y", 1, 15, "error UnknownName 14\n"),
        (b"x = time().years", 1, 12, "error UnknownName 11\n"),
        (b"x = 1; x.Count(1)", 1, 10, "error TypeMismatch 9\n"),
        (b"$CPUPercent.Count(1)", 1, 13, "error WrongArguments 12\n"),
        (b"y; x = )", 1, 8, "error UnexpectedToken 7\n"),
        (b"x = \"a", 1, 5, "error OpenString 4\n"),
        (b"$x = 1; y = x", 1, 13, "error UnknownName 12\n"),
    ];
    for (formula, line, column, wanted) in rows {
        let run = sure(&["formula"], formula);
        assert!(rt;
            gives(rt.alloc(), run, fault_at(line, column), wanted)?,
            "{wanted}"
        );
    }
    Ok(())
}

/// 64 calls that are open at one place, each the right side of an operator of each strength. The innermost item is 1. Where a call
/// is of 1, its operators are `1 * 1`, `1 + 1`, `1 < 2`, `1 == 1`, `1 && 1` and `0 || 1`, so that its whole is 1 again.
#[test]
fn the_deepest_formula_is_evaluated(rt: HostRuntime) -> Result<(), Fail> {
    let alloc = rt.alloc();
    let opened = "0||1&&1==1<1+1*max(".repeat(alloc, 64)?;
    let closed = ")".repeat(alloc, 64)?;
    let formula = format!(in alloc; "x={opened}1{closed}")?;
    let wanted = format!(in alloc; "{PLAIN};$x=1\n")?;
    let run = sure(&["formula"], formula.as_bytes());
    assert!(rt; gives(alloc, run, Status::Done, wanted.as_str())?);
    Ok(())
}

/// This text again and again, `length` bytes in all.
fn repeated(alloc: Global, part: &str, length: usize) -> Result<Vec<u8>, AllocError> {
    let mut bytes = Vec::new(alloc);
    for _ in 0..length {
        bytes.extend_from_slice(part.as_bytes())?;
    }
    bytes.truncate(length);
    Ok(bytes)
}

#[test]
fn long_formulas_end(rt: HostRuntime) -> Result<(), Fail> {
    let rows = [
        ("(", 8_192, fault_at(1, 65), "error TooDeep 64\n"),
        ("-", 8_192, fault_at(1, 65), "error TooDeep 64\n"),
        ("1?", 8_192, fault_at(1, 130), "error TooDeep 129\n"),
        ("[", 8_192, fault_at(1, 65), "error TooDeep 64\n"),
        ("9", 8_192, fault_at(1, 1), "error NumberTooLarge 0\n"),
        ("(", 8_193, Status::ScriptTooLong, ""),
    ];
    for (part, length, status, wanted) in rows {
        let formula = repeated(rt.alloc(), part, length)?;
        let run = sure(&["formula"], &formula);
        assert!(rt; gives(rt.alloc(), run, status, wanted)?, "{part}");
    }
    Ok(())
}

#[test]
fn a_message_says_where_a_fault_stands(rt: HostRuntime) -> Result<(), Fail> {
    let alloc = rt.alloc();
    let message = format!(in alloc; "{}", fault_at(2, 10))?;
    assert!(rt; message.as_str().starts_with("batch: line 2, column 10: "));
    Ok(())
}
