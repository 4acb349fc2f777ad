//! The texts that stand for names in the command line of a run.
ghost use Rattle.std.specs.Prelude.{◌≡◌, ◌++◌, IfOk, OnOk, string_bytes};
ghost use Rattle.std.specs.Option.{option_map};
ghost use Rattle.child_words.specs.Instances.{multi_task};
ghost use Rattle.child_words.specs.RunNames.{node_list, truth_text, list_for, master_for, names_of};
ghost use Rattle.wire_words.specs.Nodes.{node_id};

use crate::instances::{Instance, instances_of, is_first_on, multi_task};
use crate::names::Names;
use bt_base::{Id, NoMemory, Text};
use bt_rows::run::RunRow;
use bt_rows::tables::Tables;
use std::alloc::Global;
use wire_words::node_id;

/// The text with these characters.
fn text_of(alloc: Global, text: &str) -> Result<Text, NoMemory>
    ensures { IfOk result (λ copy. copy ≡ text.now) }
{
    Text::of_string(String::from_str(alloc, text)?)
}

/// The id as a text, if there is one.
fn id_text(alloc: Global, id: &Option<Id>) -> Result<Option<Text>, NoMemory>
    ensures { IfOk result (λ text. text ≡ id.now) }
{
    match id {
        None => Ok(None),
        Some(id) => Ok(Some(text_of(alloc, id.as_str())?)),
    }
}

/// The id of the node as a text.
fn node_text(alloc: Global, node: u64) -> Result<Text, NoMemory>
    ensures { IfOk result (λ text. text ≡ node_id node) }
{
    let id = node_id(alloc, node)?;
    text_of(alloc, id.as_str())
}

/// Adds the id of the node.
fn push_node(list: &mut String, alloc: Global, node: u64) -> Result<(), NoMemory>
    ensures { OnOk result (string_bytes list.new ≡ string_bytes list.old ++ node_id node) }
{
    let id = node_id(alloc, node)?;
    list.push_str(id.as_str())?;
    Ok(())
}

/// The ids of the nodes, separated by `;`.
#[tactic(auto, unfolding(crate::specs::RunNames::node_list))]
fn node_list(alloc: Global, instances: &[Instance]) -> Result<Text, NoMemory>
    ensures { IfOk result (λ text. text ≡ node_list instances.now) }
{
    let mut list = String::new(alloc);
    if let Some((first, others)) = instances.split_first() {
        push_node(&mut list, alloc, first.node)?;
        for one in others {
            list.push(';')?;
            push_node(&mut list, alloc, one.node)?;
        }
    }
    Text::of_string(list)
}

/// `true` or `false`.
#[tactic(auto, unfolding(crate::specs::RunNames::truth_text))]
fn truth_text(is: bool) -> &'static str
    ensures { result.now ≡ truth_text is }
{
    if is { "true" } else { "false" }
}

/// The texts for the node list and the master.
#[derive(Drop)]
struct NodeTexts {
    list: Option<Text>,
    is_master: Option<Text>,
}

/// The texts for the node list and the master, if the run is of a task that runs on several nodes.
fn node_texts(alloc: Global, tables: &Tables, run: &RunRow) -> Result<NodeTexts, NoMemory>
    ensures list { IfOk result (λ texts. texts.list ≡ option_map (list_for tables.now.state run.now) (multi_task tables.now.state run.now)) }
    ensures master { IfOk result (λ texts. texts.is_master ≡ option_map (master_for tables.now.state run.now) (multi_task tables.now.state run.now)) }
{
    let Some(task) = multi_task(tables, run) else {
        return Ok(NodeTexts {
            list: None,
            is_master: None,
        });
    };
    let instances = instances_of(alloc, tables, task, run.attempt)?;
    let list = node_list(alloc, instances.as_slice())?;
    let is_master = text_of(
        alloc,
        truth_text(is_first_on(run.node, instances.as_slice())),
    )?;
    Ok(NodeTexts {
        list: Some(list),
        is_master: Some(is_master),
    })
}

/// The texts that stand for names in the run's command line: the ids of its pool and its node, and those of its job and its task if it
/// names them. For a run of a task that runs on several nodes, the node list has the ids of the nodes of the coordination runs of
/// the run's attempt, in order of run number, separated by `;`, and the master is `true` exactly if the run's node is the first of
/// them; other runs have neither. It fails only when out of memory.
pub fn names_of(alloc: Global, tables: &Tables, run: &RunRow) -> Result<Names, NoMemory>
    ensures { IfOk result (λ names. names ≡ names_of tables.now.state run.now) }
{
    let pool = text_of(alloc, run.pool.as_str())?;
    let node = node_text(alloc, run.node)?;
    let job = id_text(alloc, &run.job)?;
    let task = id_text(alloc, &run.task)?;
    let NodeTexts { list, is_master } = node_texts(alloc, tables, run)?;
    Ok(Names {
        pool: Some(pool),
        node: Some(node),
        job,
        task,
        node_list: list,
        is_master,
    })
}
