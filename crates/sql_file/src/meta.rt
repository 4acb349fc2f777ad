//! Names of the numbers that stand beside the rows.
use keeper_store::{MetaName, Metas};

/// The name of the number that is one above the greatest place a row has had. It belongs to the table alone and is no content; it is
/// written for earlier versions of this program, and not read.
pub const PLACE: &str = "place";

/// The name under which the table has the number.
pub fn text_of(name: MetaName) -> &'static str {
    match name {
        MetaName::NextNode => "next_node",
        MetaName::NextRun => "next_run",
        MetaName::Moment => "moment",
        MetaName::Version => "version",
    }
}

/// The number of which the table has this name; None if the name is not known.
pub fn name_of(text: &str) -> Option<MetaName> {
    match text {
        "next_node" => Some(MetaName::NextNode),
        "next_run" => Some(MetaName::NextRun),
        "moment" => Some(MetaName::Moment),
        "version" => Some(MetaName::Version),
        _ => None,
    }
}

/// Whether the number was set.
pub fn is_set(metas: Metas, name: MetaName) -> bool {
    match name {
        MetaName::NextNode => metas.next_node.is_some(),
        MetaName::NextRun => metas.next_run.is_some(),
        MetaName::Moment => metas.moment.is_some(),
        MetaName::Version => metas.version.is_some(),
    }
}
