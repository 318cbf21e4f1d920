//! The private cluster of one tenant: what all instances would have, say and send if no other tenant were there.
//!
//! The definitions stand in `specs/`. They are of no use to a program: other crates' contracts cite them.
#![tactic(auto)]

mod laws;

pub use laws::{
    first_frame, instances_are_known, messages_are_found_once, messages_are_named_once, one_list,
    one_replica_changes, only_instances_are_up, replies_answer_requests, settled_from_the_start,
    states_are_lists, unnamed_tenants,
};
