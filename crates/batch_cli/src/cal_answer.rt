//! Answers of a calendar, and the lines that show them.
ghost use Rattle.std.specs.Prelude.{◌≡◌, ◌++◌, IfOk, OnOk, string_bytes};
ghost use Rattle.std.specs.List.{list_any};
ghost use Rattle.wire_texts.specs.Lines.{numbered};
ghost use Rattle.wire_texts.specs.Replies.{reply_text};
ghost use Rattle.batch_cli.specs.Shown.{fault_text, full_text, ran_out};
ghost use Rattle.batch_cli.specs.CalendarShown.{fire_word, fire_line, fire_text, fires_text};
ghost use Rattle.batch_cli.specs.CalendarAdvance.{ShowsAnswer, call_count, cal_text, first_count, first_ran_out, first_text, is_cut};
ghost use Rattle.schedule_lines.specs.Refusals as calendar;

use crate::call::{push_dues, push_reply, push_stop, ran_out, show_answer};
use batch_desk::Answer;
use bt_base::NoMemory;
use bt_rows::reply::Reply;
use schedule_lines::write_cal;
use schedule_rows::{CalAnswer, CalRefusal, CalReply, Fire, FireWord};
use std::alloc::Global;
use wire_texts::{push_line, write_reply};

/// The output of a call.
#[derive(Drop)]
pub struct Output {
    /// The lines that show what it was answered, and the calls of schedules after it.
    pub text: String,
    /// The number of calls of the desk.
    pub calls: u64,
}

/// The word of a call of a schedule, as lines have it.
#[tactic(auto, unfolding(crate::specs::CalendarShown::fire_word))]
fn word_of(word: FireWord) -> &'static str
    ensures { result.now ≡ fire_word word }
{
    match word {
        FireWord::AddJob => "add-job",
        FireWord::AddTasks => "add-tasks",
        FireWord::PatchJob => "patch-job",
    }
}

/// Adds `fire`, the job and the word of the call, and this text.
#[tactic(auto, unfolding(crate::specs::CalendarShown::fire_line))]
fn push_fire_line(
    alloc: Global,
    out: &mut String,
    n: u64,
    fire: &Fire,
    text: &str,
) -> Result<(), NoMemory>
    ensures { OnOk result (string_bytes out.new ≡ string_bytes out.old ++ numbered n (fire_line fire.now text.now)) }
{
    let job = fire.job.as_str();
    let word = word_of(fire.word);
    let line = format!(in alloc; "fire {job} {word} {text}")?;
    push_line(out, n, line.as_str())?;
    Ok(())
}

/// Adds the line of a call of a schedule that was made.
fn push_fire_reply(
    alloc: Global,
    out: &mut String,
    n: u64,
    fire: &Fire,
    reply: &Reply,
) -> Result<(), NoMemory>
    ensures { OnOk result (string_bytes out.new ≡ string_bytes out.old ++ numbered n (fire_line fire.now (reply_text reply.now))) }
{
    let text = write_reply(alloc, reply)?;
    push_fire_line(alloc, out, n, fire, text.as_str())
}

/// Adds the line of a call of a schedule that a keeper fault left undone.
#[tactic(auto, unfolding(crate::specs::Shown::fault_text))]
fn push_fire_fault(alloc: Global, out: &mut String, n: u64, fire: &Fire) -> Result<(), NoMemory>
    ensures { OnOk result (string_bytes out.new ≡ string_bytes out.old ++ numbered n (fire_line fire.now fault_text)) }
{
    push_fire_line(alloc, out, n, fire, "fault")
}

/// Adds the line of a call of a schedule that found the journal full.
#[tactic(auto, unfolding(crate::specs::Shown::full_text))]
fn push_fire_full(alloc: Global, out: &mut String, n: u64, fire: &Fire) -> Result<(), NoMemory>
    ensures { OnOk result (string_bytes out.new ≡ string_bytes out.old ++ numbered n (fire_line fire.now full_text)) }
{
    push_fire_line(alloc, out, n, fire, "full")
}

/// Adds the lines that show a call of a schedule and its answer.
fn push_fire(alloc: Global, out: &mut String, n: u64, fire: &Fire) -> Result<(), NoMemory>
    ensures { OnOk result (string_bytes out.new ≡ string_bytes out.old ++ fire_text n fire.now fire.now.answer) }
{
    match &fire.answer {
        Answer::Done { reply, dues, stop } => {
            push_fire_reply(alloc, out, n, fire, reply)?;
            push_dues(alloc, out, n, dues.as_slice())?;
            push_stop(out, n, *stop)?;
        }
        Answer::KeeperFault => push_fire_fault(alloc, out, n, fire)?,
        Answer::JournalFull => push_fire_full(alloc, out, n, fire)?,
        Answer::Memory => {}
    }
    Ok(())
}

/// Adds the lines that show calls of schedules and their answers.
fn push_fires(alloc: Global, out: &mut String, n: u64, fires: &[Fire]) -> Result<(), NoMemory>
    ensures { OnOk result (string_bytes out.new ≡ string_bytes out.old ++ fires_text n fires.now) }
{
    for fire in fires {
        push_fire(alloc, out, n, fire)?;
    }
    Ok(())
}

/// The line that shows the status of an event on the schedules.
fn show_status(alloc: Global, n: u64, status: u16) -> Result<String, NoMemory>
    ensures { IfOk result (λ text. string_bytes text ≡ first_text n (CalReply.Status status)) }
{
    let mut out = String::new(alloc);
    push_reply(alloc, &mut out, n, &Reply::Status(status))?;
    Ok(out)
}

/// The line that shows the refusal of an event on the schedules.
fn show_cal_refusal(alloc: Global, n: u64, refusal: &CalRefusal) -> Result<String, NoMemory>
    ensures { IfOk result (λ text. string_bytes text ≡ numbered n (calendar.refusal_text refusal.now)) }
{
    let mut out = String::new(alloc);
    let text = write_cal(alloc, refusal)?;
    push_line(&mut out, n, text.as_str())?;
    Ok(out)
}

/// The lines that show the reply to the event of line `n`.
fn show_first(alloc: Global, n: u64, first: &CalReply) -> Result<String, NoMemory>
    ensures { IfOk result (λ text. string_bytes text ≡ first_text n first.now) }
{
    match first {
        CalReply::Asked(answer) => show_answer(alloc, n, answer),
        CalReply::Status(status) => show_status(alloc, n, *status),
        CalReply::Refused(refusal) => show_cal_refusal(alloc, n, refusal),
        CalReply::Memory => Err(NoMemory),
    }
}

/// Whether due steps after the event stopped because memory ran out.
fn first_ran_out(first: &CalReply) -> bool
    ensures { result ≡ first_ran_out first.now }
{
    match first {
        CalReply::Asked(answer) => ran_out(answer),
        CalReply::Status(_) | CalReply::Refused(_) | CalReply::Memory => false,
    }
}

/// Whether due steps after a call of a schedule stopped because memory ran out.
fn any_ran_out(fires: &[Fire]) -> bool
    ensures { result ≡ list_any (λ fire. ran_out fire.answer) fires.now }
{
    fires.iter().any(|fire| ran_out(&fire.answer))
}

/// Whether due steps after the event or after a call of a schedule stopped because memory ran out.
fn is_cut(answer: &CalAnswer) -> bool
    ensures { result ≡ is_cut answer.now }
{
    if first_ran_out(&answer.first) {
        true
    } else {
        any_ran_out(answer.fires.as_slice())
    }
}

/// 1 if the event is for the desk.
fn first_count(first: &CalReply) -> u64
    ensures { result ≡ first_count first.now }
{
    match first {
        CalReply::Asked(_) => 1,
        CalReply::Status(_) | CalReply::Refused(_) | CalReply::Memory => 0,
    }
}

/// The number of calls of the desk that an answer has: the event's own, if it is for the desk, and those of schedules.
fn call_count(answer: &CalAnswer) -> u64
    ensures { result ≡ call_count answer.now }
{
    let fires = answer.fires.as_slice().len() as u64;
    fires + first_count(&answer.first)
}

/// The lines that show an answer.
fn show_whole(alloc: Global, n: u64, answer: &CalAnswer) -> Result<String, NoMemory>
    ensures { IfOk result (λ text. string_bytes text ≡ cal_text n answer.now) }
{
    let mut out = show_first(alloc, n, &answer.first)?;
    push_fires(alloc, &mut out, n, answer.fires.as_slice())?;
    Ok(out)
}

/// The output of a call after which the run goes on. `NoMemory` also if memory ran out in the call.
pub fn show_output(alloc: Global, n: u64, answer: &CalAnswer) -> Result<Output, NoMemory>
    ensures { IfOk result (λ output. ShowsAnswer n answer.now (string_bytes output.text) output.calls) }
{
    if !answer.whole || is_cut(answer) {
        return Err(NoMemory);
    }
    let text = show_whole(alloc, n, answer)?;
    let calls = call_count(answer);
    Ok(Output { text, calls })
}
