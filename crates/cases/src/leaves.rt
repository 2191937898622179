// Document 01's cases about numbers, vectors, rotations and poses.
use crate::line::Leaf;
use crate::show::{report, show, show_clamp, show_truth, show_vector};
use floats::angle::angle;
use floats::pose::Pose;
use floats::rotation_ops::Rotation;
use floats::scalar::{clamp, is_finite, max, min};
use floats::sign::signum;
use floats::sqrt::sqrt;
use floats::utils::{inv, simd_inv, smallest_abs_diff_between_angles};
use floats::vector::Vector;

fn vector(x: f32, y: f32) -> Vector {
    Vector { x, y }
}

fn rotation(re: f32, im: f32) -> Rotation {
    Rotation { re, im }
}

fn pair(p: Rotation) -> Vector {
    vector(p.re, p.im)
}

// A pose is its rotation and then its translation.
fn pose(re: f32, im: f32, x: f32, y: f32) -> Pose {
    Pose {
        rotation: rotation(re, im),
        translation: vector(x, y),
    }
}

pub fn run(rt: HostRuntime, leaf: Leaf, [a, b, c, d, e, f, g, h]: [f32; 8]) {
    let v = vector(a, b);
    let w = vector(c, d);
    let p = rotation(a, b);
    let q = rotation(c, d);
    let first = pose(a, b, c, d);
    let second = pose(e, f, g, h);
    match leaf {
        Leaf::Inv => show(rt, inv(a)),
        Leaf::SimdInv => show(rt, simd_inv(a)),
        Leaf::Signum => show(rt, signum(a)),
        Leaf::Difference => show(rt, smallest_abs_diff_between_angles(a, b)),
        Leaf::Max => show(rt, max(a, b)),
        Leaf::Min => show(rt, min(a, b)),
        Leaf::Root => show(rt, sqrt(a)),
        Leaf::Length => show(rt, v.simd_length()),
        Leaf::Dot => show(rt, v.gdot(w)),
        Leaf::Angle => show(rt, angle(a, b)),
        Leaf::CrossMatrix => show_vector(rt, v.gcross_matrix()),
        Leaf::ComponentProduct => show_vector(rt, v.component_mul(w)),
        Leaf::RotationProduct => show_vector(rt, pair(p.mul(q))),
        Leaf::RotationInverse => show_vector(rt, pair(p.inverse())),
        Leaf::Rotated => show_vector(rt, p.rotate(w)),
        Leaf::Column0 => show_vector(rt, p.to_mat().column(0)),
        Leaf::Column1 => show_vector(rt, p.to_mat().column(1)),
        Leaf::PoseRotation => show_vector(rt, pair(first.mul(second).rotation)),
        Leaf::PoseTranslation => show_vector(rt, first.mul(second).translation),
        Leaf::Clamp => show_clamp(rt, clamp(a, b, c)),
        Leaf::Finite => show_truth(rt, is_finite(a)),
        Leaf::Report => report(rt, a),
    }
}
