//! The names in command lines that texts stand for.
ghost use Rattle.std.specs.Prelude.{◌≡◌};
ghost use Rattle.std.specs.Option.{option_copied};
ghost use Rattle.child_words.specs.Names.{name_text, text_of};

use bt_base::Text;

/// A name that may stand in a command line (Azure Batch documentation: environment variables of tasks).
#[derive(Clone, Copy, Debug, PartialEq, Eq)]
pub enum Name {
    /// `$AZ_BATCH_POOL_ID`
    PoolId,
    /// `$AZ_BATCH_NODE_ID`
    NodeId,
    /// `$AZ_BATCH_JOB_ID`
    JobId,
    /// `$AZ_BATCH_TASK_ID`
    TaskId,
    /// `$AZ_BATCH_NODE_LIST`
    NodeList,
    /// `$AZ_BATCH_IS_CURRENT_NODE_MASTER`
    IsMaster,
}

impl Name {
    /// The name as it stands in command lines, in ASCII. It does not allocate.
    #[tactic(auto, unfolding(crate::specs::Names::name_text))]
    pub fn text(self) -> &'static str
        ensures { result.now ≡ name_text self }
    {
        match self {
            Name::PoolId => "$AZ_BATCH_POOL_ID",
            Name::NodeId => "$AZ_BATCH_NODE_ID",
            Name::JobId => "$AZ_BATCH_JOB_ID",
            Name::TaskId => "$AZ_BATCH_TASK_ID",
            Name::NodeList => "$AZ_BATCH_NODE_LIST",
            Name::IsMaster => "$AZ_BATCH_IS_CURRENT_NODE_MASTER",
        }
    }
}

/// The texts that stand for the names in the command line of a run (Azure Batch documentation: environment variables of tasks). A
/// name without a text stays as it is.
#[derive(Drop)]
pub struct Names {
    /// The id of the run's pool, for `$AZ_BATCH_POOL_ID`.
    pub pool: Option<Text>,
    /// The id of the run's node, for `$AZ_BATCH_NODE_ID`.
    pub node: Option<Text>,
    /// The id of the run's job, for `$AZ_BATCH_JOB_ID`.
    pub job: Option<Text>,
    /// The id of the run's task, for `$AZ_BATCH_TASK_ID`.
    pub task: Option<Text>,
    /// The ids of the nodes of a task with several instances, separated by `;`, for `$AZ_BATCH_NODE_LIST`.
    pub node_list: Option<Text>,
    /// `true` or `false`: whether the run's node is the first of these, for `$AZ_BATCH_IS_CURRENT_NODE_MASTER`.
    pub is_master: Option<Text>,
}

impl Names {
    /// The text that stands for the name; None if there is none. It does not allocate.
    pub fn get(&self, name: Name) -> Option<&Text>
        ensures { option_copied result ≡ text_of self.now name }
    {
        match name {
            Name::PoolId => self.pool.as_ref(),
            Name::NodeId => self.node.as_ref(),
            Name::JobId => self.job.as_ref(),
            Name::TaskId => self.task.as_ref(),
            Name::NodeList => self.node_list.as_ref(),
            Name::IsMaster => self.is_master.as_ref(),
        }
    }
}
