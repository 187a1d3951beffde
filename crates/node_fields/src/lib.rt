// The fields of a node written into its row.
#![tactic(auto)]

mod fields;

pub use fields::{
    copy_content, copy_node, set_content, set_group, set_mode, set_owner, set_revision, set_tag,
    set_tag_below, set_tag_revision,
};
