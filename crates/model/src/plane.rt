// The plane as a kind of multibody system.
ghost use Rattle.model.specs.Layout.{row_width, body_width, words_width, numbers_width};
ghost use Rattle.model.specs.Planar.{planar};
ghost use Rattle.model.specs.Kind.{widths};

use crate::joint_rows::{build_enabled, ids_at};
use crate::layout::{
    BODY_WIDTH, BODY1, BODY2, COUPLED_AXES, ENABLED, LIMIT_AXES, LIMITS_X, LOCKED_AXES, MOTOR_AXES,
    NATURAL_FREQUENCY, NUMBERS_WIDTH, ROW_WIDTH, VELOCITY_X, WORDS_WIDTH,
};
use crate::refusals::{finite_center, finite_motors, limit_ends};
use crate::store::{center_at, put_row, put_seed, put_vel, row_at, vel_at};
use floats::scalar::Side;
use multibody::kind::{Kind, Work};
use multibody::records::enabled_of;
use multibody::refusals::finite_from;
use rows::generic_joint::{JointEnabled, Masks};
use rows::integration_parameters::IntegrationParameters;
use rows::joint_velocity_constraint::solve_row;
use rows::row_ids::{motor_count, row_count};

pub struct Plane;

impl Kind for Plane {
    ghost system = { planar };

    const ROW_WIDTH: usize = ROW_WIDTH;

    const BODY_WIDTH: usize = BODY_WIDTH;

    const WORDS_WIDTH: usize = WORDS_WIDTH;

    const NUMBERS_WIDTH: usize = NUMBERS_WIDTH;

    ghost ROW_WIDTH = { row_width };

    ghost BODY_WIDTH = { body_width };

    ghost WORDS_WIDTH = { words_width };

    ghost NUMBERS_WIDTH = { numbers_width };

    fn body1_at(words: &[u32], j: usize) -> u32 {
        words[j * WORDS_WIDTH + BODY1]
    }

    fn body2_at(words: &[u32], j: usize) -> u32 {
        words[j * WORDS_WIDTH + BODY2]
    }

    fn masks_at(words: &[u32], j: usize) -> Masks {
        let o = j * WORDS_WIDTH;
        Masks {
            locked_axes: words[o + LOCKED_AXES],
            limit_axes: words[o + LIMIT_AXES],
            motor_axes: words[o + MOTOR_AXES],
            coupled_axes: words[o + COUPLED_AXES],
        }
    }

    fn enabled_at(words: &[u32], j: usize) -> JointEnabled {
        enabled_of(words[j * WORDS_WIDTH + ENABLED])
    }

    fn row_count(masks: Masks) -> usize {
        row_count(masks)
    }

    fn motor_count(masks: Masks) -> usize {
        motor_count(masks)
    }

    ghost widths = { widths };
}

impl Work for Plane {
    fn build_joint(
        params: IntegrationParameters,
        bodies: &[f32],
        words: &[u32],
        numbers: &[f32],
        j: usize,
        rows: &mut [f32],
        first: usize,
        warmstart: Option<f32>,
        substep_id: u32,
    ) -> usize {
        if !Plane::enabled_at(words, j).is_enabled() {
            return 0;
        }
        build_enabled(
            params, bodies, words, numbers, j, rows, first, warmstart, substep_id,
        )
    }

    fn sweep_row(rows: &mut [f32], k: usize, bodies: &mut [f32], b1: u32, b2: u32) -> Side {
        let row = row_at(rows, k);
        let solved = solve_row(row, vel_at(bodies, b1), vel_at(bodies, b2));
        put_row(rows, k, solved.row);
        put_vel(bodies, b1, solved.vels.vel1);
        put_vel(bodies, b2, solved.vels.vel2);
        solved.side
    }

    fn warmstart_row(rows: &[f32], k: usize, bodies: &mut [f32], b1: u32, b2: u32) {
        let row = row_at(rows, k);
        let vels = row.warmstart_generic(vel_at(bodies, b1), vel_at(bodies, b2));
        put_vel(bodies, b1, vels.vel1);
        put_vel(bodies, b2, vels.vel2);
    }

    fn remove_bias_row(rows: &mut [f32], k: usize) {
        let row = row_at(rows, k);
        put_row(rows, k, row.remove_bias_from_rhs());
    }

    fn write_back_joint(rows: &[f32], words: &[u32], k: usize, j: usize, numbers: &mut [f32]) {
        let ids = ids_at(words, j);
        for i in 0..ids.len {
            put_seed(numbers, j, ids.ids[i].id, rows[(k + i) * ROW_WIDTH]);
        }
    }

    fn finite_body(bodies: &[f32], i: usize) -> bool {
        finite_from(bodies, i * BODY_WIDTH, VELOCITY_X)
    }

    fn finite_joint(words: &[u32], numbers: &[f32], j: usize) -> bool {
        let o = j * NUMBERS_WIDTH;
        finite_from(numbers, o, LIMITS_X)
            && limit_ends(numbers, o)
            && finite_motors(numbers, o)
            && finite_from(numbers, o + NATURAL_FREQUENCY, 2)
            && finite_center(center_at(words, numbers, j))
    }
}
