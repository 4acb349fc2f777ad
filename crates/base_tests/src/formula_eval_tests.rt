//! Formulas and their results. The expected texts are worked out by hand from the language's rules.
use bt_base::{Fail, Moment, NoMemory, Num, Text};
use formula_eval::{Targets, evaluate, results_text};
use formula_metrics::Metrics;
use formula_trees::Metric;
use formula_types::compile;
use std::alloc::Global;
use std::test::Fail as TestFail;

const SETTINGS: &str =
    "$TargetDedicatedNodes=4;$TargetLowPriorityNodes=0;$NodeDeallocationOption=requeue";

// What a formula sets over these metrics, at this moment and with 4 dedicated nodes before, or `error`, its fault's name and place.
fn shown_over(alloc: Global, metrics: &Metrics, ms: u64, text: &str) -> Result<Text, TestFail> {
    let now = Moment::of_ms(ms).ok_or(NoMemory)?;
    let start = Targets {
        dedicated: 4,
        low: 0,
    };
    let formula = compile(alloc, text)?;
    match evaluate(alloc, &formula, metrics, now, start) {
        Ok(outcome) => Ok(results_text(alloc, &outcome)?),
        Err(Fail::Memory) => Err(TestFail::from(NoMemory)),
        Err(Fail::Why(fault)) => {
            let name = fault.name();
            let place = fault.place();
            Ok(Text::of_string(format!(in alloc; "error {name} {place}")?)?)
        }
    }
}

// The same without samples. The metrics are made here, so that no test has to let go of them at each of its exits.
fn shown(alloc: Global, ms: u64, text: &str) -> Result<Text, TestFail> {
    let metrics = Metrics::new(alloc)?;
    shown_over(alloc, &metrics, ms, text)
}

// The settings as they were before, and then these variables.
fn unchanged(alloc: Global, variables: &str) -> Result<Text, NoMemory> {
    Text::of_string(format!(in alloc; "{SETTINGS};{variables}")?)
}

#[test]
fn formulas_set_targets_and_options(rt: HostRuntime) -> Result<(), TestFail> {
    let table = [
        (
            "$TargetDedicatedNodes = 2.9; a = 0 && 1/0; b = 7 || 1/0; c = 1 && 7; d = 0 || 0",
            "$TargetDedicatedNodes=2;$TargetLowPriorityNodes=0;$NodeDeallocationOption=requeue;$a=0;$b=1;$c=1;$d=0",
        ),
        (
            "$NodeDeallocationOption = taskcompletion; 1 ? stop() : 0; $TargetDedicatedNodes = 0",
            "$TargetDedicatedNodes=4;$TargetLowPriorityNodes=0;$NodeDeallocationOption=taskcompletion",
        ),
        ("x = $CPUPercent", "error EmptyVector 4"),
        ("$TargetDedicatedNodes = -1;", "error NegativeTarget 0"),
        (
            "y = 1; $TargetDedicatedNodes = 1001;",
            "error TargetTooLarge 7",
        ),
        ("$TargetLowPriorityNodes = 1", "error TargetTooLarge 0"),
        (
            "$NodeDeallocationOption = \"Requeue\"",
            "error NotAnOption 0",
        ),
    ];
    for (text, wanted) in table {
        let found = shown(rt.alloc(), 0, text)?;
        assert_eq!(rt; found.as_str(), wanted, "of {text}");
    }
    Ok(())
}

#[test]
fn expressions_have_values(rt: HostRuntime) -> Result<(), TestFail> {
    let alloc = rt.alloc();
    let table = [
        (
            "bb = 1; a = bb + 1; b = a * 10; bb = b + a + bb; $b = bb",
            "$bb=23;$a=2;$b=20;$b=23",
        ),
        (
            "x = \"Requeue\"; $x = [1, -2.5]; x = \"b\"",
            "$x=b;$x=[1,-2.5]",
        ),
        (
            "x = [avg(1, 5, [2]), avg(-0.000001, 0), sum(1, [5, 2]), max([1, 5], 2), min([1, 5]), range([1, 5, 2])]",
            "$x=[2.666666,0,8,5,1,4]",
        ),
        (
            "v = [4, 1, 3, 2]; x = [len(v), norm([1, -1]), percentile(v, 50), percentile(v, 0), percentile(v, 100), val(v, 1.9)]",
            "$v=[4,1,3,2];$x=[4,1.414213,2,1,4,1]",
        ),
        (
            "x = [round(-2.5), round(2.499999), floor(-2.5), ceil(-2.5), ceil(0.000001)]",
            "$x=[-3,2,-3,-2,1]",
        ),
        (
            "x = [2.5, 0.000001] * [-2, 0.5]; y = 2 / [1, -3]; z = [1, -3] - 2; w = -[1, -3]",
            "$x=[-5,0];$y=[2,-0.666666];$z=[-1,-5];$w=[-1,3]",
        ),
        (
            "x = time(\"2024-02-29T01:02:03.4567891Z\"); y = [x.year, x.month, x.day, x.weekday, x.hour, x.minute, x.second]",
            "$x=2024-02-29T01:02:03.4567891Z;$y=[2024,2,29,4,1,2,3]",
        ),
        (
            "z = TimeInterval_Minute + time(); y = TimeInterval_Year / -2; h = time().hour; o = $NodeDeallocationOption",
            "$z=2027-01-15T08:01:00.0000000Z;$y=-157680000000000;$h=8;$o=requeue",
        ),
    ];
    for (text, variables) in table {
        let found = shown(alloc, 1_800_000_000_000, text)?;
        let wanted = unchanged(alloc, variables)?;
        assert_eq!(rt; found.as_str(), wanted.as_str(), "of {text}");
    }
    Ok(())
}

#[test]
fn the_first_fault_counts(rt: HostRuntime) -> Result<(), TestFail> {
    let table = [
        ("x = [1,2] + [1]", "error LengthsDiffer 10"),
        ("x = [1] / [0, 0]", "error LengthsDiffer 8"),
        ("x = [1] / [0]", "error DivideByZero 8"),
        ("x = sum(1000000000000, 1)", "error TooLarge 4"),
        ("x = percentile([], -1)", "error EmptyVector 4"),
        ("x = percentile([1], 100.000001)", "error IndexOutOfRange 4"),
        ("x = val([1], 1)", "error IndexOutOfRange 4"),
        ("x = time(\"1969-12-31\")", "error TimeOutOfRange 4"),
        ("x = time(\"now\")", "error BadTimeText 4"),
        ("x = TimeInterval_Year * 10001", "error TimeOutOfRange 22"),
    ];
    for (text, wanted) in table {
        let found = shown(rt.alloc(), 0, text)?;
        assert_eq!(rt; found.as_str(), wanted, "of {text}");
    }
    Ok(())
}

// Metrics with samples 1, 2 and 3 of one metric at 0, 30 and 60 seconds, whose value now is 7.
fn sampled(alloc: Global) -> Result<Metrics, TestFail> {
    let mut metrics = Metrics::new(alloc)?;
    for (label, value) in [(0, 1), (30_000, 2), (60_000, 3)] {
        let number = Num::of_whole(value).map_err(|_| "a number")?;
        metrics
            .push(Metric::ActiveTasks, label, number)
            .map_err(|_| "a push was refused")?;
    }
    let present = Num::of_whole(7).map_err(|_| "a number")?;
    metrics.set_current(Metric::ActiveTasks, Some(present));
    Ok(metrics)
}

// What a formula sets over these samples, at 90 seconds.
fn shown_sampled(alloc: Global, text: &str) -> Result<Text, TestFail> {
    let metrics = sampled(alloc)?;
    shown_over(alloc, &metrics, 90_000, text)
}

// What `x` is set to by this call of a method of the metric with samples.
fn shown_call(alloc: Global, call: &str) -> Result<Text, TestFail> {
    let text = format!(in alloc; "x = $ActiveTasks.{call}")?;
    shown_sampled(alloc, text.as_str())
}

// The settings as they were before, and then this value of `x`.
fn unchanged_but_x(alloc: Global, value: &str) -> Result<Text, NoMemory> {
    Text::of_string(format!(in alloc; "{SETTINGS};$x={value}")?)
}

#[test]
fn methods_read_samples(rt: HostRuntime) -> Result<(), TestFail> {
    let alloc = rt.alloc();
    let table = [
        ("GetSample(2.9)", "[3,2]"),
        ("GetSample(0)", "[]"),
        ("GetSample(1000000000000)", "[3,2,1]"),
        ("GetSample(TimeInterval_Minute)", "[3,2]"),
        ("GetSample(time(\"1970-01-01T00:01:00Z\"))", "[3]"),
        ("GetSample(1000 * TimeInterval_Second)", "[3,2,1]"),
        (
            "GetSample(TimeInterval_Minute, 90 * TimeInterval_Second)",
            "[2,1]",
        ),
        (
            "GetSample(time(\"1970-01-01\"), TimeInterval_Minute)",
            "[2,1]",
        ),
        (
            "GetSample(31 * TimeInterval_Second, 59 * TimeInterval_Second)",
            "[]",
        ),
        ("GetSample(TimeInterval_Minute, 66.666666)", "[3,2]"),
        (
            "GetSample(TimeInterval_Minute, TimeInterval_Zero, 66.666666)",
            "[3,2]",
        ),
        (
            "GetSample(100 * TimeInterval_Second, 200 * TimeInterval_Second, 0)",
            "[]",
        ),
        ("GetSamplePercent(TimeInterval_Minute)", "66.666666"),
        ("GetSamplePercent(1000 * TimeInterval_Second)", "75"),
        (
            "GetSamplePercent(100 * TimeInterval_Second, 200 * TimeInterval_Second)",
            "0",
        ),
        ("GetSamplePeriod()", "300000000"),
        ("Count()", "3"),
        ("HistoryBeginTime()", "1970-01-01T00:00:00.0000000Z"),
    ];
    for (call, wanted) in table {
        let found = shown_call(alloc, call)?;
        let wanted = unchanged_but_x(alloc, wanted)?;
        assert_eq!(rt; found.as_str(), wanted.as_str(), "of {call}");
    }
    Ok(())
}

#[test]
fn metrics_have_values_and_faults(rt: HostRuntime) -> Result<(), TestFail> {
    let table = [
        (
            "$TargetDedicatedNodes = $ActiveTasks",
            "$TargetDedicatedNodes=7;$TargetLowPriorityNodes=0;$NodeDeallocationOption=requeue",
        ),
        (
            "x = $ActiveTasks.GetSample(-0.000001)",
            "error IndexOutOfRange 17",
        ),
        (
            "x = $ActiveTasks.GetSample(TimeInterval_Minute, 66.666667)",
            "error NotEnoughSamples 17",
        ),
        (
            "x = $FailedTasks.HistoryBeginTime()",
            "error EmptyVector 17",
        ),
    ];
    for (text, wanted) in table {
        let found = shown_sampled(rt.alloc(), text)?;
        assert_eq!(rt; found.as_str(), wanted, "of {text}");
    }
    Ok(())
}
