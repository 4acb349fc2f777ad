//! Refusals as lines show them.
ghost use Rattle.std.specs.Prelude.{◌≡◌, ◌++◌, OnOk, string_bytes};
ghost use Rattle.wire_texts.specs.Refusals.{refusal_text};

use bt_rows::refusal::Refusal;
use std::alloc::AllocError;
use wire_words::{job_state_word, name_of, status_of, table_word};

/// Adds the status, the name and the values of a refusal.
pub fn push_refusal(out: &mut String, refusal: &Refusal) -> Result<(), AllocError>
    ensures { OnOk result (string_bytes out.new ≡ string_bytes out.old ++ refusal_text refusal.now) }
{
    let status = status_of(refusal);
    let name = name_of(refusal);
    match refusal {
        Refusal::InvalidPropertyValue(member) => {
            let member = member.text();
            write!(out, "{status} {name} {member}")
        }
        Refusal::AutoscaleTooSoon(moment) => write!(out, "{status} {name} {moment}"),
        Refusal::FormulaRefused(fault) => {
            let place = fault.place();
            let fault = fault.name();
            write!(out, "{status} {name} {fault} {place}")
        }
        Refusal::JobStateRefuses(state) => {
            let state = job_state_word(*state);
            write!(out, "{status} {name} {state}")
        }
        Refusal::TableFull(table, limit) => {
            let table = table_word(*table);
            write!(out, "{status} {name} {table} {limit}")
        }
        Refusal::SampleTooOld(label) => write!(out, "{status} {name} {label}"),
        _ => write!(out, "{status} {name}"),
    }
}
