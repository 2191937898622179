// The rows of one joint between two planar bodies, file by file as rapier2d 0.36.1 has them.
#![tactic(auto)]

pub mod generic_joint;
pub mod integration_parameters;
pub mod joint_constraint_builder;
pub mod joint_constraint_helper;
pub mod joint_velocity_constraint;
pub mod motor_model;
pub mod reaction;
pub mod row;
pub mod row_ids;
