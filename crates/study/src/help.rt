// What the program says of itself.
use crate::out::Console;

pub fn help(con: &Console) {
    con.out(
        b"study: joint rows of rapier2d 0.36.1, planar, scalar, f32, in which every impulse names its rule

  study                reads a study from standard input, runs it and prints its tables
  study FILE...        the same for each file; - is standard input
  study check FILE...  reads and loads, runs nothing, and says what a run would refuse as far as that can be seen
  study csv FILE...    prints the rows of all tables as comma-separated values under one heading
                       (csv --reactions and csv --velocities: the joints' reactions, the bodies' velocities)
  study draw FILE      prints a picture in SVG: bodies, joints, stops, velocities, row ids
                       (draw FILE... --to DIR: one file a picture)
  study report FILE    prints a page for a supplement, in HTML: tables and picture, with each impulse's rule, definition and contract
  study print FILE     prints the model as a study, every number as its bits
  study seeded SEED    prints the study that a seed from 0 to 4294967295 draws, a load that others can repeat
  study example NAME   prints an example: knee, finger, finger_cut, wing, pendulum, leg, gait
  study help (--help, -h), study --version

Before the files, --strict makes a warning end with 2.
Ends with 0 where all calls are granted, 1 where one is refused, 2 where something cannot be read or written.

A study is plain text: a line an item, # starts a comment.

  settings                          then: dt, length_unit, normalized_max_corrective_velocity
  body NAME                         then: position X Y; angle A or rotation COS SIN; mass M or inverse_mass M or
                                    inverse_masses X Y; inertia I or inverse_inertia I; velocity X Y; angular_velocity W
  joint NAME BODY BODY              (a body's name or world), then:
    lock, limit, motor, couple      and axes (x, y, angle) or a mask as a number
    frame1 X Y, frame1_angle A or frame1_rotation COS SIN, and frame2 likewise
    limits AXIS MIN MAX; target_velocity, target_position, stiffness, damping, max_force AXIS X
    motor_model AXIS acceleration|force; center_angle A or center COS SIN (of the angular limit)
    natural_frequency X; damping_ratio X; limit_impulse, motor_impulse, impulse AXIS X (stored impulses)
    enabled, disabled, disabled_by_attached_body

Then the calls, in order:

  load; place BODY X Y ANGLE (or COS SIN); build [warm C] [substep N]; warm_start; sweep N;
  settle TOLERANCE [ROUNDS]; remove_bias; write_back; read_rows JOINT; read_velocity BODY;
  frame [warm C] sweeps N substeps N (moves the bodies by dt); set_targets FILE (motor targets, RFC 4180, beside the study; a name with blanks in quotes); masks JOINT [lock AXES] [limit AXES] [motor AXES] [couple AXES];
  table; table csv; repeat N .. end

What is left out has the Rust's default. Numbers are decimals, f32 bits as 0x3F800000, inf and -inf.
docs/STUDY.md has all of it, with units and signs; docs/RULES.md the rules that a table cites.
",
    );
}

// Which version made a number, and after what.
fn name(con: &Console) {
    con.out(b"katydidzinc 1.0.0, after rapier2d 0.36.1");
}

pub fn version(con: &Console) {
    name(con);
    con.out(b"; proved by rattle-kit-13f logic dac8208d650f15bf\n");
}

// The last line below a table.
pub fn made_by(con: &Console) {
    con.out(b"by ");
    name(con);
    con.out(b"\n");
}
