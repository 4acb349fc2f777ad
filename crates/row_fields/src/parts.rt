//! Structs that are parts of rows: each is an array of its fields, in the order of the struct.
ghost use Rattle.std.specs.Prelude.{◌≡◌};
ghost use Rattle.row_fields.specs.Parts.{
  start_task_data,
  start_task_in,
  start_task_plain,
  release_task_data,
  release_task_in,
  release_task_plain,
  given_data,
  given_in,
  given_plain,
  multi_data,
  multi_in,
  multi_plain,
  closed_data,
  closed_in,
  closed_plain,
};

use crate::array::ArrayBuilder;
use crate::fault::RowFault;
use crate::field::Field;
use crate::places::{field_at, option_at, require_length};
use bt_base::{Fail, NoMemory};
use bt_rows::job::ReleaseTask;
use bt_rows::pool::StartTask;
use bt_rows::task::{Closed, Given, Multi};
use serde_json::Value;
use std::alloc::Global;

impl Field for StartTask {
    ghost data_of = { start_task_data };

    ghost in_data = { start_task_in };

    ghost nesting = { 1 };

    ghost plain = { start_task_plain };

    #[tactic(auto, using(crate::proofs::ReadBack::start_task_back))]
    fn to_value(&self, alloc: Global) -> Result<Value, NoMemory> {
        let array = ArrayBuilder::new(alloc)
            .field(&self.line)?
            .field(&self.retries)?
            .field(&self.wait)?;
        Ok(array.into_value())
    }

    #[tactic(auto, unfolding(crate::specs::Parts::start_task_in))]
    fn of_value(alloc: Global, value: &Value) -> Result<StartTask, Fail<RowFault>> {
        require_length(3, value)?;
        let line = field_at(alloc, 0, value)?;
        let retries = field_at(alloc, 1, value)?;
        let wait = field_at(alloc, 2, value)?;
        Ok(StartTask {
            line,
            retries,
            wait,
        })
    }
}

impl Field for ReleaseTask {
    ghost data_of = { release_task_data };

    ghost in_data = { release_task_in };

    ghost nesting = { 1 };

    ghost plain = { release_task_plain };

    #[tactic(auto, using(crate::proofs::ReadBack::release_task_back))]
    fn to_value(&self, alloc: Global) -> Result<Value, NoMemory> {
        let array = ArrayBuilder::new(alloc)
            .field(&self.line)?
            .field(&self.wall)?;
        Ok(array.into_value())
    }

    #[tactic(auto, unfolding(crate::specs::Parts::release_task_in))]
    fn of_value(alloc: Global, value: &Value) -> Result<ReleaseTask, Fail<RowFault>> {
        require_length(2, value)?;
        let line = field_at(alloc, 0, value)?;
        let wall = field_at(alloc, 1, value)?;
        Ok(ReleaseTask { line, wall })
    }
}

impl Field for Given {
    ghost data_of = { given_data };

    ghost in_data = { given_in };

    ghost nesting = { 1 };

    ghost plain = { given_plain };

    #[tactic(auto, using(crate::proofs::ReadBack::given_back))]
    fn to_value(&self, alloc: Global) -> Result<Value, NoMemory> {
        let array = ArrayBuilder::new(alloc)
            .option(&self.job)?
            .option(&self.satisfies)?;
        Ok(array.into_value())
    }

    #[tactic(auto, unfolding(crate::specs::Parts::given_in))]
    fn of_value(alloc: Global, value: &Value) -> Result<Given, Fail<RowFault>> {
        require_length(2, value)?;
        let job = option_at(alloc, 0, value)?;
        let satisfies = option_at(alloc, 1, value)?;
        Ok(Given { job, satisfies })
    }
}

impl Field for Multi {
    ghost data_of = { multi_data };

    ghost in_data = { multi_in };

    ghost nesting = { 1 };

    ghost plain = { multi_plain };

    #[tactic(auto, using(crate::proofs::ReadBack::multi_back))]
    fn to_value(&self, alloc: Global) -> Result<Value, NoMemory> {
        let array = ArrayBuilder::new(alloc)
            .field(&self.count)?
            .field(&self.line)?;
        Ok(array.into_value())
    }

    #[tactic(auto, unfolding(crate::specs::Parts::multi_in))]
    fn of_value(alloc: Global, value: &Value) -> Result<Multi, Fail<RowFault>> {
        require_length(2, value)?;
        let count = field_at(alloc, 0, value)?;
        let line = field_at(alloc, 1, value)?;
        Ok(Multi { count, line })
    }
}

impl Field for Closed {
    ghost data_of = { closed_data };

    ghost in_data = { closed_in };

    ghost nesting = { 3 };

    ghost plain = { closed_plain };

    #[tactic(auto, using(crate::proofs::ReadBack::closed_back))]
    fn to_value(&self, alloc: Global) -> Result<Value, NoMemory> {
        let array = ArrayBuilder::new(alloc)
            .field(&self.how)?
            .field(&self.success)?
            .field(&self.satisfies)?
            .field(&self.at)?;
        Ok(array.into_value())
    }

    #[tactic(auto, unfolding(crate::specs::Parts::closed_in))]
    fn of_value(alloc: Global, value: &Value) -> Result<Closed, Fail<RowFault>> {
        require_length(4, value)?;
        let how = field_at(alloc, 0, value)?;
        let success = field_at(alloc, 1, value)?;
        let satisfies = field_at(alloc, 2, value)?;
        let at = field_at(alloc, 3, value)?;
        Ok(Closed {
            how,
            success,
            satisfies,
            at,
        })
    }
}
