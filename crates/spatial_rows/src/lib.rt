// The rows of one joint between two bodies in space (document 02, R-14), file by file as the Rust has them with dim3. What has
// no dimension in it is the crate rows'.
#![tactic(auto)]

pub mod generic_joint;
pub mod joint_constraint_builder;
pub mod joint_constraint_helper;
pub mod joint_velocity_constraint;
pub mod row_ids;
