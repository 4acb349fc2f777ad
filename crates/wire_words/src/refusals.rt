//! Refusals: their numbers, statuses, names and values.
ghost use Rattle.std.specs.Prelude.{◌≡◌, IfOk};
ghost use Rattle.std.specs.Fmt.{decimal};
ghost use Rattle.wire_words.specs.Refusals.{refusal_number, refusal_status, refusal_name, refusal_values, table_word};

use crate::words::job_state_word;
use bt_base::{List, NoMemory, Text};
use bt_rows::refusal::{Refusal, Table};
use std::alloc::Global;

/// The refusal's number, from 1 on (this project's own). It does not allocate.
pub fn number_of(refusal: &Refusal) -> u8
    ensures { result ≡ refusal_number refusal.now }
{
    match refusal {
        Refusal::UnreadableBody => 1,
        Refusal::InvalidPropertyValue(_) => 2,
        Refusal::PoolNotFound => 3,
        Refusal::PoolExists => 4,
        Refusal::PoolBeingDeleted => 5,
        Refusal::PoolBeingResized => 6,
        Refusal::PoolScalesAutomatically => 7,
        Refusal::PoolDoesNotScale => 8,
        Refusal::AutoscaleTooSoon(_) => 9,
        Refusal::FormulaRefused(_) => 10,
        Refusal::NodeNotFound => 11,
        Refusal::PoolNotResizing => 12,
        Refusal::JobNotFound => 13,
        Refusal::JobExists => 14,
        Refusal::JobStateRefuses(_) => 15,
        Refusal::TaskNotFound => 16,
        Refusal::TaskExists => 17,
        Refusal::TaskCompleted => 18,
        Refusal::TaskNotReactivable => 19,
        Refusal::DependenciesOff => 20,
        Refusal::DependencyListTooLong => 21,
        Refusal::JobActionOff => 22,
        Refusal::InstanceSlots => 23,
        Refusal::CollectionTooLong => 24,
        Refusal::RunNotFound => 25,
        Refusal::RunAlreadyEnded => 26,
        Refusal::RunAlreadyTaken => 27,
        Refusal::RunNotTaken => 28,
        Refusal::RunWithdrawn => 29,
        Refusal::RunWaiting => 32,
        Refusal::TableFull(_, _) => 30,
        Refusal::SampleTooOld(_) => 31,
        Refusal::TerminationEngaged => 38,
    }
}

/// The refusal's status of HTTP: 400, 404 or 409 (Azure Batch REST reference). It does not allocate.
pub fn status_of(refusal: &Refusal) -> u16
    ensures { result ≡ refusal_status refusal.now }
{
    match refusal {
        Refusal::UnreadableBody
        | Refusal::InvalidPropertyValue(_)
        | Refusal::FormulaRefused(_)
        | Refusal::DependenciesOff
        | Refusal::DependencyListTooLong
        | Refusal::JobActionOff
        | Refusal::InstanceSlots
        | Refusal::CollectionTooLong
        | Refusal::TerminationEngaged => 400,
        Refusal::PoolNotFound
        | Refusal::NodeNotFound
        | Refusal::JobNotFound
        | Refusal::TaskNotFound
        | Refusal::RunNotFound => 404,
        Refusal::PoolExists
        | Refusal::PoolBeingDeleted
        | Refusal::PoolBeingResized
        | Refusal::PoolScalesAutomatically
        | Refusal::PoolDoesNotScale
        | Refusal::AutoscaleTooSoon(_)
        | Refusal::PoolNotResizing
        | Refusal::JobExists
        | Refusal::JobStateRefuses(_)
        | Refusal::TaskExists
        | Refusal::TaskCompleted
        | Refusal::TaskNotReactivable
        | Refusal::RunAlreadyEnded
        | Refusal::RunAlreadyTaken
        | Refusal::RunNotTaken
        | Refusal::RunWithdrawn
        | Refusal::RunWaiting
        | Refusal::TableFull(_, _)
        | Refusal::SampleTooOld(_) => 409,
    }
}

/// The refusal's name, as in the Azure Batch REST reference if that has one. It does not allocate.
#[tactic(auto, unfolding(crate::specs::Refusals::refusal_name))]
pub fn name_of(refusal: &Refusal) -> &'static str
    ensures { result.now ≡ refusal_name refusal.now }
{
    match refusal {
        Refusal::UnreadableBody => "UnreadableBody",
        Refusal::InvalidPropertyValue(_) => "InvalidPropertyValue",
        Refusal::PoolNotFound => "PoolNotFound",
        Refusal::PoolExists => "PoolExists",
        Refusal::PoolBeingDeleted => "PoolBeingDeleted",
        Refusal::PoolBeingResized => "PoolBeingResized",
        Refusal::PoolScalesAutomatically => "PoolScalesAutomatically",
        Refusal::PoolDoesNotScale => "PoolDoesNotScale",
        Refusal::AutoscaleTooSoon(_) => "AutoscaleTooSoon",
        Refusal::FormulaRefused(_) => "FormulaRefused",
        Refusal::NodeNotFound => "NodeNotFound",
        Refusal::PoolNotResizing => "PoolNotResizing",
        Refusal::JobNotFound => "JobNotFound",
        Refusal::JobExists => "JobExists",
        Refusal::JobStateRefuses(_) => "JobStateRefuses",
        Refusal::TaskNotFound => "TaskNotFound",
        Refusal::TaskExists => "TaskExists",
        Refusal::TaskCompleted => "TaskCompleted",
        Refusal::TaskNotReactivable => "TaskNotReactivable",
        Refusal::DependenciesOff => "DependenciesOff",
        Refusal::DependencyListTooLong => "DependencyListTooLong",
        Refusal::JobActionOff => "JobActionOff",
        Refusal::InstanceSlots => "InstanceSlots",
        Refusal::CollectionTooLong => "CollectionTooLong",
        Refusal::RunNotFound => "RunNotFound",
        Refusal::RunAlreadyEnded => "RunAlreadyEnded",
        Refusal::RunAlreadyTaken => "RunAlreadyTaken",
        Refusal::RunNotTaken => "RunNotTaken",
        Refusal::RunWithdrawn => "RunWithdrawn",
        Refusal::RunWaiting => "RunWaiting",
        Refusal::TableFull(_, _) => "TableFull",
        Refusal::SampleTooOld(_) => "SampleTooOld",
        Refusal::TerminationEngaged => "TerminationEngaged",
    }
}

/// The name of a table with a limit. It does not allocate.
#[tactic(auto, unfolding(crate::specs::Refusals::table_word))]
pub fn table_word(table: Table) -> &'static str
    ensures { result.now ≡ table_word table }
{
    match table {
        Table::Pools => "pools",
        Table::Jobs => "jobs",
        Table::Tasks => "tasks",
    }
}

/// A copy of the text.
fn copied(alloc: Global, text: &str) -> Result<Text, NoMemory>
    ensures { IfOk result (λ copy. copy ≡ text.now) }
{
    Text::of_string(String::from_str(alloc, text)?)
}

/// The digits of a number.
fn digits(alloc: Global, n: u64) -> Result<Text, NoMemory>
    ensures { IfOk result (λ text. text ≡ decimal n) }
{
    Text::of_string(format!(in alloc; "{n}")?)
}

/// The values that the refusal carries, as texts: for an invalid property its name, for a refused formula the fault and its place,
/// for a full table its name and limit, and else the one value that the refusal has, if it has one. It fails only when out of memory.
pub fn values_of(alloc: Global, refusal: &Refusal) -> Result<List<Text>, NoMemory>
    ensures { IfOk result (λ values. values ≡ refusal_values refusal.now) }
{
    let values = match refusal {
        Refusal::InvalidPropertyValue(member) => vec![in alloc; copied(alloc, member.text())?]?,
        Refusal::AutoscaleTooSoon(moment) => vec![in alloc; digits(alloc, *moment)?]?,
        Refusal::FormulaRefused(fault) => {
            vec![in alloc;
                copied(alloc, fault.name())?,
                digits(alloc, fault.place() as u64)?,
            ]?
        }
        Refusal::JobStateRefuses(state) => vec![in alloc; copied(alloc, job_state_word(*state))?]?,
        Refusal::TableFull(table, limit) => {
            vec![in alloc; copied(alloc, table_word(*table))?, digits(alloc, *limit)?]?
        }
        Refusal::SampleTooOld(label) => vec![in alloc; digits(alloc, *label)?]?,
        _ => Vec::new(alloc),
    };
    Ok(List::of_vec(values))
}
