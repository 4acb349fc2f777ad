//! What scripts write whose pools scale automatically. Expected texts are written by hand.
ghost use Rattle.std.specs.Prelude.{◌<◌, length};

use crate::run_tests::{gives, run_anew, sure};
use crate::script_tests::is_done;
use crate::store_tests::{content_after, run_over, store_of};
use batch_cli::Status;
use bt_base::{NoMemory, Text};
use keeper_store::{Entry, MetaName, Stored};
use std::alloc::{AllocError, Global};
use std::test::Fail;

/// A pool that follows the percentage of the processors, of which there is no sample at first.
pub const FOLLOWING: &str = "0 add-pool {\"id\":\"p\",\"enableAutoScale\":true,\
    \"autoScaleFormula\":\"$TargetDedicatedNodes = $CPUPercent;\"}\n\
    0 sample p 3.5\n900000 tick\n";

const FOLLOWING_OUTPUT: &str = "1 201\n1 U1 p 0\n1 U12 p error EmptyVector 24\n2 200\n3 200\n\
    3 U1 p 900000\n3 U12 p $TargetDedicatedNodes=3;$TargetLowPriorityNodes=0;\
    $NodeDeallocationOption=requeue\n\
    3 U15 p 1 1\n3 U15 p 2 2\n3 U15 p 3 3\n3 U11 p steady\n";

/// A text that is no formula, and a resize of a pool that scales.
const NOT_RESIZED: &str =
    "900000 add-pool {\"id\":\"q\",\"enableAutoScale\":true,\"autoScaleFormula\":\"x = ;\"}\n\
    900000 resize p {\"targetDedicatedNodes\":1}\n";

const NOT_RESIZED_OUTPUT: &str =
    "4 400 FormulaRefused UnexpectedToken 4\n5 409 PoolScalesAutomatically\ntables 900000\n\
    pool p active steady 3 0 1 spread\nnode 1 p 1 idle\nnode 2 p 2 idle\nnode 3 p 3 idle\n\
    scale p 900000 1800000\n";

/// Automatic scaling is enabled again, before 30 seconds are over and then.
const ENABLED: &str =
    "0 add-pool {\"id\":\"p\"}\n0 enable-autoscale p {\"autoScaleFormula\":\"$TargetDedicatedNodes=0;\"}\n\
    29999 enable-autoscale p {\"autoScaleFormula\":\"$TargetDedicatedNodes=0;\"}\n\
    30000 enable-autoscale p {\"autoScaleFormula\":\"$TargetDedicatedNodes=0;\"}\n";

const ENABLED_OUTPUT: &str = "1 201\n2 200\n2 U1 p 0\n2 U12 p $TargetDedicatedNodes=0;\
    $TargetLowPriorityNodes=0;$NodeDeallocationOption=requeue\n3 409 AutoscaleTooSoon 0\n4 200\n\
    4 U1 p 30000\n4 U12 p $TargetDedicatedNodes=0;$TargetLowPriorityNodes=0;\
    $NodeDeallocationOption=requeue\ntables 30000\npool p active steady 0 0 1 spread\n\
    scale p 900000 930000\n";

/// One sample of the processors in each half minute, also of a pool that does not scale.
const SAMPLED: &str =
    "0 add-pool {\"id\":\"p\"}\n0 sample p 42.5\n0 sample p 42.5\n29999 sample P 0\n\
    30000 sample P 100\n30000 sample q 0\n";

const SAMPLED_OUTPUT: &str = "1 201\n2 200\n3 409 SampleTooOld 0\n4 409 SampleTooOld 0\n5 200\n\
    6 404 PoolNotFound\ntables 30000\npool p active steady 0 0 1 spread\n";

/// What is refused of a pool that does not scale, and of one that resizes.
const UNSCALED: &str = "0 evaluate-autoscale p {\"autoScaleFormula\":\"\"}\n\
    0 add-pool {\"id\":\"p\",\"targetDedicatedNodes\":1}\n0 disable-autoscale P\n\
    0 evaluate-autoscale p {\"autoScaleFormula\":\"x = ;\"}\n\
    0 enable-autoscale p {\"autoScaleEvaluationInterval\":\"PT5M\"}\n\
    0 enable-autoscale p {\"autoScaleFormula\":\"x = ;\"}\n0 resize p {\"targetDedicatedNodes\":40}\n\
    0 enable-autoscale p {\"autoScaleFormula\":\"\"}\n0 stop-resize p\n";

const UNSCALED_OUTPUT: &str =
    "1 404 PoolNotFound\n2 201\n2 U15 p 1 1\n2 U11 p steady\n3 409 PoolDoesNotScale\n\
    4 409 PoolDoesNotScale\n5 409 PoolDoesNotScale\n6 400 FormulaRefused UnexpectedToken 4\n7 202\n\
    7 U15 p 2 2\n7 U15 p 3 3\n7 U15 p 4 4\n7 U15 p 5 5\n7 U15 p 6 6\n7 U15 p 7 7\n7 U15 p 8 8\n\
    8 409 PoolBeingResized\n9 202\n9 U11 p stopped\n";

/// Then its formula, which sets nothing, has it resize to its target again. Another one gives it fewer nodes, and it keeps them when it
/// does not scale any more. Calls that enable scaling are 30 seconds apart also then.
const SCALED: &str = "1 enable-autoscale P {\"autoScaleFormula\":\"stop();\",\
    \"autoScaleEvaluationInterval\":\"PT5M\"}\n\
    1 evaluate-autoscale p {\"autoScaleFormula\":\"x = $CurrentDedicatedNodes;\"}\n\
    1 resize p {\"targetDedicatedNodes\":1}\n2 stop-resize p\n30000 enable-autoscale p {}\n\
    30001 enable-autoscale p {\"autoScaleFormula\":\
    \"$TargetDedicatedNodes = 2; $NodeDeallocationOption = terminate;\"}\n\
    30001 disable-autoscale p\n40000 enable-autoscale p {\"autoScaleFormula\":\"\"}\n\
    60001 enable-autoscale p {\"autoScaleFormula\":\"\"}\n60001 delete-pool p\n60001 sample p 1\n";

const SCALED_OUTPUT: &str =
    "10 200\n10 U1 p 0\n10 U12 p $TargetDedicatedNodes=40;$TargetLowPriorityNodes=0;\
    $NodeDeallocationOption=requeue\n11 200 $TargetDedicatedNodes=40;$TargetLowPriorityNodes=0;\
    $NodeDeallocationOption=requeue;$x=8\n12 409 PoolScalesAutomatically\n13 202\n13 U11 p stopped\n\
    14 409 AutoscaleTooSoon 1\n14 U1 p 30000\n15 200\n15 U12 p $TargetDedicatedNodes=2;\
    $TargetLowPriorityNodes=0;$NodeDeallocationOption=terminate\n15 U13 8\n15 U13 7\n15 U13 6\n\
    15 U13 5\n15 U13 4\n15 U13 3\n15 U14 3\n15 U14 4\n15 U14 5\n15 U14 6\n15 U14 7\n15 U14 8\n\
    15 U11 p steady\n16 200\n17 409 AutoscaleTooSoon 30001\n18 200\n18 U1 p 60000\n\
    18 U12 p $TargetDedicatedNodes=2;$TargetLowPriorityNodes=0;$NodeDeallocationOption=requeue\n\
    19 202\n19 U13 2\n19 U13 1\n19 U14 1\n19 U14 2\n19 U11 p removed\n20 404 PoolNotFound\n\
    tables 60001\n";

/// A pool that is being deleted while its task runs: it is still sampled by hand.
const DELETED: &str =
    "0 add-pool {\"id\":\"p\",\"enableAutoScale\":true,\"autoScaleFormula\":\"$TargetDedicatedNodes = 1;\"}\n\
    0 add-job {\"id\":\"j\",\"poolInfo\":{\"poolId\":\"p\"}}\n\
    0 add-task j {\"id\":\"t\",\"commandLine\":\"w\"}\n1 take 1\n2 delete-pool p\n\
    2 enable-autoscale p {\"autoScaleFormula\":\"x = ;\"}\n2 disable-autoscale p\n\
    2 evaluate-autoscale p {\"autoScaleFormula\":\"x = ;\"}\n900000 sample p 0.000001\n\
    900001 end 1 0\n";

const DELETED_OUTPUT: &str = "1 201\n1 U1 p 0\n1 U12 p $TargetDedicatedNodes=1;\
    $TargetLowPriorityNodes=0;$NodeDeallocationOption=requeue\n1 U15 p 1 1\n1 U11 p steady\n2 201\n\
    3 201\n3 U16 j t 1 1\n4 200\n5 202\n5 U13 1\n6 409 PoolBeingDeleted\n7 409 PoolBeingDeleted\n\
    8 409 PoolBeingDeleted\n9 200\n10 200\n10 U5 j t active 0\n10 U14 1\n10 U11 p removed\n\
    tables 900001\njob j p active 0 -\ntask j t active - - 0\nrun 1 task 1 j t ended 0\n";

/// A formula whose target is too large has a fault each 5 minutes, and the pool stays as it is. A target of 1,000 is taken.
const FAULTY: &str =
    "0 add-pool {\"id\":\"p\",\"targetDedicatedNodes\":1}\n0 enable-autoscale p {\"autoScaleFormula\":\
    \"$TargetDedicatedNodes = 1001;\",\"autoScaleEvaluationInterval\":\"PT5M\"}\n\
    299999 tick\n300000 tick\n\
    300000 evaluate-autoscale p {\"autoScaleFormula\":\"$TargetDedicatedNodes = 1000;\"}\n\
    300000 evaluate-autoscale p {\"autoScaleFormula\":\"$TargetLowPriorityNodes = 1;\"}\n\
    300000 get-pool p\n";

const FAULTY_OUTPUT: &str = "1 201\n1 U15 p 1 1\n1 U11 p steady\n2 200\n2 U1 p 0\n\
    2 U12 p error TargetTooLarge 0\n3 200\n3 U1 p 270000\n4 200\n4 U1 p 300000\n\
    4 U12 p error TargetTooLarge 0\n5 200 $TargetDedicatedNodes=1000;$TargetLowPriorityNodes=0;\
    $NodeDeallocationOption=requeue\n6 200 error TargetTooLarge 0\n\
    7 200 {\"allocationState\":\"steady\",\"currentDedicatedNodes\":1,\"currentLowPriorityNodes\":0,\
    \"enableAutoScale\":true,\"id\":\"p\",\"resizeErrors\":[],\"state\":\"active\",\
    \"targetDedicatedNodes\":1,\"targetLowPriorityNodes\":0,\"taskSlotsPerNode\":1}\n\
    tables 300000\npool p active steady 1 0 1 spread\nnode 1 p 1 idle\nscale p 300000 600000\n";

/// A formula is evaluated only when its pool is steady: here its resize is over by its timeout.
const STUCK: &str = "0 add-pool {\"id\":\"p\",\"enableAutoScale\":true,\"autoScaleFormula\":\
    \"$TargetDedicatedNodes = 40;\",\"autoScaleEvaluationInterval\":\"PT5M\"}\n\
    300000 tick\n900000 tick\n";

const STUCK_OUTPUT: &str = "1 201\n1 U1 p 0\n1 U12 p $TargetDedicatedNodes=40;\
    $TargetLowPriorityNodes=0;$NodeDeallocationOption=requeue\n1 U15 p 1 1\n1 U15 p 2 2\n1 U15 p 3 3\n\
    1 U15 p 4 4\n1 U15 p 5 5\n1 U15 p 6 6\n1 U15 p 7 7\n1 U15 p 8 8\n2 200\n2 U1 p 300000\n3 200\n\
    3 U1 p 900000\n3 U11 p timeout\n3 U12 p $TargetDedicatedNodes=40;$TargetLowPriorityNodes=0;\
    $NodeDeallocationOption=requeue\ntables 900000\npool p active resizing 40 0 1 spread\n\
    node 1 p 1 idle\nnode 2 p 2 idle\nnode 3 p 3 idle\nnode 4 p 4 idle\nnode 5 p 5 idle\n\
    node 6 p 6 idle\nnode 7 p 7 idle\nnode 8 p 8 idle\nscale p 300000 1200000\n";

/// What the metrics count: a task that waits for another one does not count, and neither does that of a disabled job. The sample is older
/// than the tasks.
const COUNTED: &str =
    "0 add-pool {\"id\":\"p\",\"targetDedicatedNodes\":1,\"taskSlotsPerNode\":2}\n\
    0 enable-autoscale p {\"autoScaleFormula\":\"stop();\"}\n\
    0 add-job {\"id\":\"j\",\"usesTaskDependencies\":true,\"poolInfo\":{\"poolId\":\"p\"}}\n\
    0 add-tasks j {\"value\":[{\"id\":\"a\",\"commandLine\":\"w\"},{\"id\":\"b\",\"commandLine\":\"w\"},\
    {\"id\":\"c\",\"commandLine\":\"w\"},{\"id\":\"d\",\"commandLine\":\"w\",\"dependsOn\":{\"taskIds\":[\"x\"]}},\
    {\"id\":\"e\",\"commandLine\":\"w\",\"requiredSlots\":2}]}\n\
    0 add-job {\"id\":\"k\",\"poolInfo\":{\"poolId\":\"p\"}}\n0 add-task k {\"id\":\"t\",\"commandLine\":\"w\"}\n\
    0 disable-job k {\"disableTasks\":\"wait\"}\n1 take 1\n2 end 1 1\n3 take 2\n3 end 2 0\n\
    3 evaluate-autoscale p {\"autoScaleFormula\":\"m = [$ActiveTasks, $RunningTasks, $PendingTasks, \
    $SucceededTasks, $FailedTasks, $TaskSlotsPerNode, $CurrentDedicatedNodes, $CurrentLowPriorityNodes, \
    $PreemptedNodeCount]; s = $PendingTasks.GetSample(1);\"}\n";

const COUNTED_OUTPUT: &str = "1 201\n1 U15 p 1 1\n1 U11 p steady\n2 200\n2 U1 p 0\n\
    2 U12 p $TargetDedicatedNodes=1;$TargetLowPriorityNodes=0;$NodeDeallocationOption=requeue\n3 201\n\
    4 200 201 201 201 201 201\n4 U16 j a 1 1\n4 U16 j b 1 2\n5 201\n6 201\n7 202\n7 U8 k\n8 200\n\
    9 200\n9 U5 j a failure\n9 U16 j c 1 3\n10 200\n11 200\n11 U5 j b success\n\
    12 200 $TargetDedicatedNodes=1;$TargetLowPriorityNodes=0;$NodeDeallocationOption=requeue;\
    $m=[1,1,2,1,1,2,1,0,0];$s=[0]\ntables 3\npool p active steady 1 0 2 spread\nnode 1 p 1 running\n\
    job j p active 0 -\njob k p disabled 0 -\ntask j a completed failure 1 0\n\
    task j b completed success 0 0\ntask j c running - - 0\ntask j d active - - 0\n\
    task j e active - - 0\ntask k t active - - 0\nrun 1 task 1 j a ended 1\nrun 2 task 1 j b ended 0\n\
    run 3 task 1 j c queued -\nscale p 900000 900000\n";

#[test]
fn pools_scale_and_what_is_refused_of_them(rt: HostRuntime) -> Result<(), Fail> {
    let rows = [
        (FOLLOWING, NOT_RESIZED, FOLLOWING_OUTPUT, NOT_RESIZED_OUTPUT),
        (ENABLED, "", ENABLED_OUTPUT, ""),
        (SAMPLED, "", SAMPLED_OUTPUT, ""),
        (UNSCALED, SCALED, UNSCALED_OUTPUT, SCALED_OUTPUT),
        (DELETED, "", DELETED_OUTPUT, ""),
        (FAULTY, "", FAULTY_OUTPUT, ""),
        (STUCK, "", STUCK_OUTPUT, ""),
        (COUNTED, "", COUNTED_OUTPUT, ""),
    ];
    for (first, rest, output, tables) in rows {
        assert!(rt;
            is_done(rt.alloc(), (first, rest), (output, tables))?,
            "{first}{rest}"
        );
    }
    Ok(())
}

/// A formula in the manner of the documentation's examples: a node for each task that waits, or half of the target if none does.
const WAITING: &str = "$samples = $ActiveTasks.GetSamplePercent(TimeInterval_Minute * 15); \
    $tasks = $samples < 70 ? max(0, $ActiveTasks.GetSample(1)) : \
    max($ActiveTasks.GetSample(1), avg($ActiveTasks.GetSample(TimeInterval_Minute * 15))); \
    $targetVMs = $tasks > 0 ? $tasks : max(0, $TargetDedicatedNodes / 2); \
    cappedPoolSize = 20; $TargetDedicatedNodes = max(0, min($targetVMs, cappedPoolSize)); \
    $NodeDeallocationOption = taskcompletion;";

/// What it gives without samples, with a target of 4.
const HALF_OUTPUT: &str = "$TargetDedicatedNodes=2;$TargetLowPriorityNodes=0;\
    $NodeDeallocationOption=taskcompletion;$samples=0;$tasks=0;$targetVMs=2;$cappedPoolSize=20\n";

#[test]
fn a_formula_of_waiting_tasks_is_evaluated_without_samples(rt: HostRuntime) -> Result<(), Fail> {
    let words = ["formula", "--now", "1800000000000", "--dedicated", "4"];
    let run = sure(&words, WAITING.as_bytes());
    assert!(rt; gives(rt.alloc(), run, Status::Done, HALF_OUTPUT)?);
    Ok(())
}

/// The moment at which the pool with that formula is added.
const BEGINNING: u64 = 1_800_000_000_000;

/// The pool, a job and five tasks one second later, and a tick each half minute for a quarter of an hour.
fn waiting_script(alloc: Global) -> Result<String, AllocError> {
    let mut script = format!(in alloc;
        "1800000000000 add-pool {{\"id\":\"p\",\"enableAutoScale\":true,\"autoScaleFormula\":\"{WAITING}\"}}\n\
        1800000001000 add-job {{\"id\":\"j\",\"poolInfo\":{{\"poolId\":\"p\"}}}}\n\
        1800000001000 add-tasks j {{\"value\":[{{\"id\":\"t1\",\"commandLine\":\"w\"}},\
        {{\"id\":\"t2\",\"commandLine\":\"w\"}},{{\"id\":\"t3\",\"commandLine\":\"w\"}},\
        {{\"id\":\"t4\",\"commandLine\":\"w\"}},{{\"id\":\"t5\",\"commandLine\":\"w\"}}]}}\n"
    )?;
    for half in 1..=30_u64 {
        writeln!(script, "{} tick", BEGINNING + half * 30_000)?;
    }
    Ok(script)
}

/// One of the 31 labels of the quarter of an hour has a sample, and no task waits.
const BEGUN_OUTPUT: &str =
    "1 201\n1 U1 p 1800000000000\n1 U12 p $TargetDedicatedNodes=0;$TargetLowPriorityNodes=0;\
    $NodeDeallocationOption=taskcompletion;$samples=3.225806;$tasks=0;$targetVMs=0;$cappedPoolSize=20\n\
    2 201\n3 200 201 201 201 201 201\n";

/// All labels have a sample, and the pool gets as many nodes as tasks wait.
const GROWN_OUTPUT: &str =
    "33 200\n33 U1 p 1800000900000\n33 U12 p $TargetDedicatedNodes=5;$TargetLowPriorityNodes=0;\
    $NodeDeallocationOption=taskcompletion;$samples=100;$tasks=5;$targetVMs=5;$cappedPoolSize=20\n\
    33 U15 p 1 1\n33 U15 p 2 2\n33 U15 p 3 3\n33 U15 p 4 4\n33 U15 p 5 5\n33 U11 p steady\n\
    33 U16 j t1 1 1\n33 U16 j t2 2 2\n33 U16 j t3 3 3\n33 U16 j t4 4 4\n33 U16 j t5 5 5\n\
    tables 1800000900000\npool p active steady 5 0 1 spread\nnode 1 p 1 running\nnode 2 p 2 running\n\
    node 3 p 3 running\nnode 4 p 4 running\nnode 5 p 5 running\njob j p active 0 -\n\
    task j t1 running - - 0\ntask j t2 running - - 0\ntask j t3 running - - 0\ntask j t4 running - - 0\n\
    task j t5 running - - 0\nrun 1 task 1 j t1 queued -\nrun 2 task 2 j t2 queued -\n\
    run 3 task 3 j t3 queued -\nrun 4 task 4 j t4 queued -\nrun 5 task 5 j t5 queued -\n\
    scale p 900000 1800001800000\n";

/// The output of that script.
fn waiting_output(alloc: Global) -> Result<String, AllocError> {
    let mut output = String::from_str(alloc, BEGUN_OUTPUT)?;
    for half in 1..=29_u64 {
        let line = half + 3;
        let label = BEGINNING + half * 30_000;
        writeln!(output, "{line} 200")?;
        writeln!(output, "{line} U1 p {label}")?;
    }
    output.push_str(GROWN_OUTPUT)?;
    Ok(output)
}

#[test]
fn a_pool_follows_its_waiting_tasks(rt: HostRuntime) -> Result<(), Fail> {
    let alloc = rt.alloc();
    let script = waiting_script(alloc)?;
    let output = waiting_output(alloc)?;
    let run = sure(&["replay"], script.as_bytes());
    assert!(rt; gives(alloc, run, Status::Done, output.as_str())?);
    Ok(())
}

/// Samples of the processors for a day and half a minute, and then a formula that asks for their history.
fn sampled_for_a_day(alloc: Global) -> Result<String, AllocError> {
    let mut script = String::from_str(alloc, "0 add-pool {\"id\":\"p\"}\n")?;
    for half in 1..=2_881_u64 {
        let label = half * 30_000;
        writeln!(script, "{label} sample p 1")?;
    }
    script.push_str(
        "0 enable-autoscale p {\"autoScaleFormula\":\"x = $CPUPercent.Count(); y = $CPUPercent.HistoryBeginTime();\"}\n",
    )?;
    Ok(script)
}

/// Whether the output of that script has this part.
fn shows_in_a_day(alloc: Global, wanted: &[u8]) -> Result<bool, AllocError>
    requires { 0 < length wanted.now }
{
    let script = sampled_for_a_day(alloc)?;
    let (status, output, _keeper) = run_anew(alloc, sure(&["replay"], script.as_bytes()))?;
    Ok(status == Status::Done && output.windows(wanted.len()).any(|part| part == wanted))
}

/// Of the 2,881 samples the oldest one went.
#[test]
fn the_newest_2880_samples_are_kept(rt: HostRuntime) -> Result<(), Fail> {
    let wanted = b"\n2882 200\n2883 200\n2883 U1 p 86430000\n2883 U12 p $TargetDedicatedNodes=0;\
        $TargetLowPriorityNodes=0;$NodeDeallocationOption=requeue;$x=2880;\
        $y=1970-01-01T00:01:00.0000000Z\ntables 86430000\npool p active steady 0 0 1 spread\n\
        scale p 900000 87330000\n"
        .as_slice();
    assert!(rt; shows_in_a_day(rt.alloc(), wanted)?);
    Ok(())
}

/// A pool that scales, and is sampled at 0.
const SCALING: &str =
    "0 add-pool {\"id\":\"p\",\"enableAutoScale\":true,\"autoScaleFormula\":\"stop();\",\
    \"autoScaleEvaluationInterval\":\"PT168H\"}\n";

/// A sample of its active tasks with this label, as a store has it.
fn sample_entry(alloc: Global, label: u64) -> Result<Entry, NoMemory> {
    let key = format!(in alloc; "p/ActiveTasks/{label}")?;
    let text = format!(in alloc; "[\"p\",\"ActiveTasks\",{label},0]")?;
    Ok(Entry {
        key: Text::of_string(key)?,
        text: Text::of_string(text)?,
    })
}

/// Adds such samples for the half minutes of a day after the first one.
fn push_samples(alloc: Global, stored: &mut Stored) -> Result<(), NoMemory> {
    for half in 1..=2_879_u64 {
        let entry = sample_entry(alloc, half * 30_000)?;
        stored.samples.push(entry)?;
    }
    stored.metas = stored.metas.with(MetaName::Moment, 86_370_000);
    Ok(())
}

/// What a store contains with that pool and 2,880 samples of its active tasks.
fn sampled_content(alloc: Global) -> Result<Stored, AllocError> {
    let mut stored = content_after(alloc, SCALING)?;
    match push_samples(alloc, &mut stored) {
        Ok(()) => Ok(stored),
        Err(NoMemory) => {
            drop(stored);
            Err(AllocError)
        }
    }
}

/// The next half minute, and how many samples there are then.
const NEXT_SAMPLED: &str = "86400000 tick\n86400000 evaluate-autoscale p {\"autoScaleFormula\":\
    \"a = [$ActiveTasks.Count(), $RunningTasks.Count()]; b = $ActiveTasks.HistoryBeginTime();\"}\n";

const NEXT_SAMPLED_OUTPUT: &str = "1 200\n1 U1 p 86400000\n2 200 $TargetDedicatedNodes=0;\
    $TargetLowPriorityNodes=0;$NodeDeallocationOption=requeue;$a=[2880,2];\
    $b=1970-01-01T00:00:30.0000000Z\ntables 86400000\npool p active steady 0 0 1 spread\n\
    scale p 604800000 604800000\n";

/// The oldest sample of a metric goes when the pool is sampled and there are 2,880 of it already.
#[test]
fn a_pool_keeps_the_newest_2880_samples_of_a_metric(rt: HostRuntime) -> Result<(), Fail> {
    let alloc = rt.alloc();
    let store = store_of(alloc, sampled_content(alloc)?, 0)?;
    let (status, output, store) = run_over(alloc, NEXT_SAMPLED, store)?;
    drop(store);
    assert!(rt; status == Status::Done && output.as_slice() == NEXT_SAMPLED_OUTPUT.as_bytes());
    Ok(())
}
