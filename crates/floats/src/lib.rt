// The float leaves and stand-ins of the planar joint rows: binary32, one rounding an operation,
// never fused, in the order in which rapier2d 0.36.1 writes them.
#![tactic(auto)]

pub mod angle;
pub mod angular_inertia_ops;
pub mod bits;
pub mod micro_report;
pub mod pose;
pub mod rotation_ops;
pub mod scalar;
pub mod sign;
pub mod sin_cos;
pub mod sines;
pub mod sqrt;
pub mod utils;
pub mod vector;
