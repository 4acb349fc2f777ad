//! Answers, and the lines that show them.
ghost use Rattle.std.specs.Prelude.{◌≡◌, ◌≤◌, ◌++◌, false, IfOk, OnOk, OnErr, string_bytes};
ghost use Rattle.batch_desk.specs.Answers.{IsInOrder, HasSameOpening};
ghost use Rattle.wire_texts.specs.Lines.{numbered};
ghost use Rattle.wire_texts.specs.Dues.{due_text};
ghost use Rattle.wire_texts.specs.Refusals.{refusal_text};
ghost use Rattle.wire_texts.specs.Replies.{reply_text};
ghost use Rattle.batch_cli.specs.Shown.{stop_text, fault_text, full_text, due_lines, stop_line, answer_text, look_text, ran_out};
ghost use Rattle.batch_cli.specs.Advance.{ShowsCall, HaltsCall};

use batch_desk::{Answer, Desk, Stop};
use batch_keeper::Keeper;
use bt_base::{Moment, NoMemory};
use bt_rows::due::Due;
use bt_rows::event::Event;
use bt_rows::refusal::Refusal;
use bt_rows::reply::Reply;
use std::alloc::{AllocError, Global};
use table_reads::Read;
use wire_texts::{push_line, write_due, write_reply};

/// Adds the line of a reply.
pub fn push_reply(alloc: Global, out: &mut String, n: u64, reply: &Reply) -> Result<(), NoMemory>
    ensures { OnOk result (string_bytes out.new ≡ string_bytes out.old ++ numbered n (reply_text reply.now)) }
{
    let text = write_reply(alloc, reply)?;
    push_line(out, n, text.as_str())?;
    Ok(())
}

/// Adds the line of a due step.
fn push_due(alloc: Global, out: &mut String, n: u64, due: &Due) -> Result<(), NoMemory>
    ensures { OnOk result (string_bytes out.new ≡ string_bytes out.old ++ numbered n (due_text due.now)) }
{
    let text = write_due(alloc, due)?;
    push_line(out, n, text.as_str())?;
    Ok(())
}

/// Adds a line for each due step.
pub fn push_dues(alloc: Global, out: &mut String, n: u64, dues: &[Due]) -> Result<(), NoMemory>
    ensures { OnOk result (string_bytes out.new ≡ string_bytes out.old ++ due_lines n dues.now) }
{
    for due in dues {
        push_due(alloc, out, n, due)?;
    }
    Ok(())
}

/// Adds a line if a keeper fault stopped the due steps.
#[tactic(auto, unfolding(crate::specs::Shown::stop_text))]
pub fn push_stop(out: &mut String, n: u64, stop: Stop) -> Result<(), AllocError>
    ensures { OnOk result (string_bytes out.new ≡ string_bytes out.old ++ stop_line n stop) }
{
    match stop {
        Stop::KeeperFault => push_line(out, n, "stop fault"),
        Stop::Rest | Stop::Memory => Ok(()),
    }
}

/// Adds the line of a call that a keeper fault left undone.
#[tactic(auto, unfolding(crate::specs::Shown::fault_text))]
fn push_fault(out: &mut String, n: u64) -> Result<(), AllocError>
    ensures { OnOk result (string_bytes out.new ≡ string_bytes out.old ++ numbered n fault_text) }
{
    push_line(out, n, "fault")
}

/// Adds the line of a call that found the journal full.
#[tactic(auto, unfolding(crate::specs::Shown::full_text))]
fn push_full(out: &mut String, n: u64) -> Result<(), AllocError>
    ensures { OnOk result (string_bytes out.new ≡ string_bytes out.old ++ numbered n full_text) }
{
    push_line(out, n, "full")
}

/// The lines that show what line `n` was answered: its reply, its due steps, and whether a fault stopped them. It fails only when out of
/// memory.
pub fn show_answer(alloc: Global, n: u64, answer: &Answer) -> Result<String, NoMemory>
    ensures { IfOk result (λ text. string_bytes text ≡ answer_text n answer.now) }
{
    let mut out = String::new(alloc);
    match answer {
        Answer::Done { reply, dues, stop } => {
            push_reply(alloc, &mut out, n, reply)?;
            push_dues(alloc, &mut out, n, dues.as_slice())?;
            push_stop(&mut out, n, *stop)?;
        }
        Answer::KeeperFault => push_fault(&mut out, n)?,
        Answer::JournalFull => push_full(&mut out, n)?,
        Answer::Memory => {}
    }
    Ok(out)
}

/// Adds the line of a refusal.
#[tactic(auto, using(crate::proofs::RefusalLines::refusal_reply))]
fn push_refusal(alloc: Global, out: &mut String, n: u64, refusal: Refusal) -> Result<(), NoMemory>
    ensures { OnOk result (string_bytes out.new ≡ string_bytes out.old ++ numbered n (refusal_text refusal)) }
{
    push_reply(alloc, out, n, &Reply::Refused(refusal))
}

/// The answer to line `n`, which is not a valid request.
pub fn show_refusal(alloc: Global, n: u64, refusal: Refusal) -> Result<String, NoMemory>
    ensures { IfOk result (λ text. string_bytes text ≡ numbered n (refusal_text refusal)) }
{
    let mut out = String::new(alloc);
    push_refusal(alloc, &mut out, n, refusal)?;
    Ok(out)
}

/// The line that shows what the read of line `n` shows of the desk's tables. It fails only when out of memory.
pub fn show_look<K: Keeper + Drop>(
    alloc: Global,
    desk: &Desk<K>,
    n: u64,
    read: &Read,
) -> Result<String, NoMemory>
    ensures { IfOk result (λ text. string_bytes text ≡ look_text n desk.now.state read.now) }
{
    let mut out = String::new(alloc);
    let reply = desk.read(alloc, read)?;
    let pushed = push_reply(alloc, &mut out, n, &reply);
    drop(reply);
    pushed?;
    Ok(out)
}

/// Whether the run ends after this answer because memory ran out.
pub fn ran_out(answer: &Answer) -> bool
    ensures { result ≡ ran_out answer.now }
{
    match answer {
        Answer::Memory => true,
        Answer::KeeperFault | Answer::JournalFull => false,
        Answer::Done { stop, .. } => match stop {
            Stop::Memory => true,
            Stop::Rest | Stop::KeeperFault => false,
        },
    }
}

/// The lines that show what line `n` was answered. `NoMemory` also if the run ends after that answer.
fn show_if_going(alloc: Global, n: u64, answer: &Answer) -> Result<String, NoMemory>
    ensures { IfOk result (λ text. (ran_out answer.now ≡ false) × (string_bytes text ≡ answer_text n answer.now)) }
{
    if ran_out(answer) {
        Err(NoMemory)
    } else {
        show_answer(alloc, n, answer)
    }
}

/// Makes a call, and returns the lines that show what it was answered. `NoMemory` comes if memory runs out in the call or for
/// these lines.
pub fn show_call<K: Keeper + Drop>(
    alloc: Global,
    desk: &mut Desk<K>,
    n: u64,
    moment: Moment,
    event: Event,
) -> Result<String, NoMemory>
    ensures ok { IfOk result (λ text. ShowsCall K.faults desk.old desk.new n moment event (string_bytes text)) }
    ensures err { OnErr result (HaltsCall K.faults desk.old desk.new n moment event) }
    ensures same { HasSameOpening desk.old desk.new }
    ensures in_order { IsInOrder K.told K.faults desk.new }
    ensures later { K.faults desk.old.keeper ≤ K.faults desk.new.keeper }
{
    let answer = desk.call(alloc, moment, event);
    let shown = show_if_going(alloc, n, &answer);
    drop(answer);
    shown
}
