//! Enums of which a variant has a value.
ghost use Rattle.std.specs.Prelude.{◌≡◌};
ghost use Rattle.row_fields.specs.PayloadEnums.{
  ending_data,
  ending_in,
  ending_plain,
  node_stage_data,
  node_stage_in,
  node_stage_plain,
  run_state_data,
  run_state_in,
  run_state_plain,
  how_data,
  how_in,
  how_plain,
};

use crate::fault::RowFault;
use crate::field::Field;
use crate::named::{find_named, name_value, payload_of, payload_value};
use bt_base::{Fail, NoMemory};
use bt_rows::node::NodeStage;
use bt_rows::run::{Ending, RunState};
use bt_rows::task::How;
use serde_json::Value;
use std::alloc::Global;

impl Field for Ending {
    ghost data_of = { ending_data };

    ghost in_data = { ending_in };

    ghost nesting = { 1 };

    ghost plain = { ending_plain };

    #[tactic(auto, using(crate::proofs::ReadBack::ending_back), unfolding(crate::specs::PayloadEnums::ending_data, variant_names::specs::PayloadNames::ending_name))]
    fn to_value(&self, alloc: Global) -> Result<Value, NoMemory> {
        match self {
            Ending::Code(code) => payload_value(alloc, *self, code),
            _ => name_value(alloc, *self),
        }
    }

    #[tactic(auto, unfolding(crate::specs::PayloadEnums::ending_in))]
    fn of_value(alloc: Global, value: &Value) -> Result<Ending, Fail<RowFault>> {
        match payload_of(alloc, "Code", value) {
            Ok(code) => Ok(Ending::Code(code)),
            Err(Fail::Memory) => Err(Fail::Memory),
            Err(Fail::Why(_)) => find_named(&[Ending::NoCode, Ending::NotStarted], value),
        }
    }
}

impl Field for NodeStage {
    ghost data_of = { node_stage_data };

    ghost in_data = { node_stage_in };

    ghost nesting = { 1 };

    ghost plain = { node_stage_plain };

    #[tactic(auto, using(crate::proofs::ReadBack::node_stage_back), unfolding(crate::specs::PayloadEnums::node_stage_data, variant_names::specs::PayloadNames::node_stage_name))]
    fn to_value(&self, alloc: Global) -> Result<Value, NoMemory> {
        match self {
            NodeStage::Leaving(option) => payload_value(alloc, *self, option),
            _ => name_value(alloc, *self),
        }
    }

    #[tactic(auto, unfolding(crate::specs::PayloadEnums::node_stage_in))]
    fn of_value(alloc: Global, value: &Value) -> Result<NodeStage, Fail<RowFault>> {
        match payload_of(alloc, "Leaving", value) {
            Ok(option) => Ok(NodeStage::Leaving(option)),
            Err(Fail::Memory) => Err(Fail::Memory),
            Err(Fail::Why(_)) => find_named(
                &[
                    NodeStage::Starting,
                    NodeStage::Usable,
                    NodeStage::StartFailed,
                ],
                value,
            ),
        }
    }
}

impl Field for RunState {
    ghost data_of = { run_state_data };

    ghost in_data = { run_state_in };

    ghost nesting = { 2 };

    ghost plain = { run_state_plain };

    #[tactic(auto, using(crate::proofs::ReadBack::run_state_back), unfolding(crate::specs::PayloadEnums::run_state_data, variant_names::specs::PayloadNames::run_state_name))]
    fn to_value(&self, alloc: Global) -> Result<Value, NoMemory> {
        match self {
            RunState::Ended(ending) => payload_value(alloc, *self, ending),
            _ => name_value(alloc, *self),
        }
    }

    #[tactic(auto, unfolding(crate::specs::PayloadEnums::run_state_in))]
    fn of_value(alloc: Global, value: &Value) -> Result<RunState, Fail<RowFault>> {
        match payload_of(alloc, "Ended", value) {
            Ok(ending) => Ok(RunState::Ended(ending)),
            Err(Fail::Memory) => Err(Fail::Memory),
            Err(Fail::Why(_)) => find_named(
                &[
                    RunState::Waiting,
                    RunState::Queued,
                    RunState::Taken,
                    RunState::Withdrawn,
                ],
                value,
            ),
        }
    }
}

impl Field for How {
    ghost data_of = { how_data };

    ghost in_data = { how_in };

    ghost nesting = { 2 };

    ghost plain = { how_plain };

    #[tactic(auto, using(crate::proofs::ReadBack::how_back), unfolding(crate::specs::PayloadEnums::how_data, variant_names::specs::PayloadNames::how_name))]
    fn to_value(&self, alloc: Global) -> Result<Value, NoMemory> {
        match self {
            How::Ended(ending) => payload_value(alloc, *self, ending),
            _ => name_value(alloc, *self),
        }
    }

    #[tactic(auto, unfolding(crate::specs::PayloadEnums::how_in))]
    fn of_value(alloc: Global, value: &Value) -> Result<How, Fail<RowFault>> {
        match payload_of(alloc, "Ended", value) {
            Ok(ending) => Ok(How::Ended(ending)),
            Err(Fail::Memory) => Err(Fail::Memory),
            Err(Fail::Why(_)) => find_named(&[How::Terminated, How::Wall], value),
        }
    }
}
