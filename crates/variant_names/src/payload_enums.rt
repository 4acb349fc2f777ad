//! Enums of which a variant has a value. The name of a variant is that in the code.
ghost use Rattle.std.specs.Prelude.{◌≡◌};
ghost use Rattle.variant_names.specs.PayloadNames.{ending_name, node_stage_name, run_state_name, how_name};

use crate::named::Named;
use bt_rows::node::NodeStage;
use bt_rows::run::{Ending, RunState};
use bt_rows::task::How;

impl Named for Ending {
    ghost name = { ending_name };

    #[tactic(auto, unfolding(crate::specs::PayloadNames::ending_name))]
    fn name(self) -> &'static str {
        match self {
            Ending::Code(_) => "Code",
            Ending::NoCode => "NoCode",
            Ending::NotStarted => "NotStarted",
        }
    }
}

impl Named for NodeStage {
    ghost name = { node_stage_name };

    #[tactic(auto, unfolding(crate::specs::PayloadNames::node_stage_name))]
    fn name(self) -> &'static str {
        match self {
            NodeStage::Starting => "Starting",
            NodeStage::Usable => "Usable",
            NodeStage::StartFailed => "StartFailed",
            NodeStage::Leaving(_) => "Leaving",
        }
    }
}

impl Named for RunState {
    ghost name = { run_state_name };

    #[tactic(auto, unfolding(crate::specs::PayloadNames::run_state_name))]
    fn name(self) -> &'static str {
        match self {
            RunState::Waiting => "Waiting",
            RunState::Queued => "Queued",
            RunState::Taken => "Taken",
            RunState::Ended(_) => "Ended",
            RunState::Withdrawn => "Withdrawn",
        }
    }
}

impl Named for How {
    ghost name = { how_name };

    #[tactic(auto, unfolding(crate::specs::PayloadNames::how_name))]
    fn name(self) -> &'static str {
        match self {
            How::Ended(_) => "Ended",
            How::Terminated => "Terminated",
            How::Wall => "Wall",
        }
    }
}
