// Planar rotations, as unit complex numbers: the Rust's utils/rotation_ops.rs and its operators.
ghost use Rattle.std.specs.Prelude.{◌≡◌};
ghost use Rattle.floats.specs.Rotation.{product_of, inverse_of, rotate_of, to_mat_of, column_of};

use crate::vector::Vector;

#[repr(C)]
#[derive(Clone, Copy)]
pub struct Rotation {
    pub re: f32,
    pub im: f32,
}

// A matrix by its columns.
#[repr(C)]
#[derive(Clone, Copy)]
pub struct Matrix {
    pub x_axis: Vector,
    pub y_axis: Vector,
}

impl Rotation {
    pub fn mul(self, rhs: Rotation) -> Rotation
        ensures { result ≡ product_of self rhs }
    {
        Rotation {
            re: self.re * rhs.re - self.im * rhs.im,
            im: self.re * rhs.im + self.im * rhs.re,
        }
    }

    pub fn inverse(self) -> Rotation
        ensures { result ≡ inverse_of self }
    {
        Rotation {
            re: self.re,
            im: -self.im,
        }
    }

    // The rotation times a vector.
    pub fn rotate(self, v: Vector) -> Vector
        ensures { result ≡ rotate_of self v }
    {
        Vector {
            x: self.re * v.x - self.im * v.y,
            y: self.im * v.x + self.re * v.y,
        }
    }

    pub fn to_mat(self) -> Matrix
        ensures { result ≡ to_mat_of self }
    {
        Matrix {
            x_axis: Vector {
                x: self.re,
                y: self.im,
            },
            y_axis: Vector {
                x: -self.im,
                y: self.re,
            },
        }
    }
}

impl Matrix {
    // Column 0, and for every other number column 1.
    pub fn column(self, i: usize) -> Vector
        ensures { result ≡ column_of self i }
    {
        if i == 0 { self.x_axis } else { self.y_axis }
    }
}
