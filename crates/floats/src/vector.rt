// Planar vectors, with the operations that the rows use.
ghost use Rattle.std.specs.Prelude.{◌≡◌};
ghost use Rattle.floats.specs.Vector.{add_of, sub_of, mul_of, gdot_of, gcross_matrix_of, component_mul_of, length_of};

use crate::sqrt::sqrt;

#[repr(C)]
#[derive(Clone, Copy)]
pub struct Vector {
    pub x: f32,
    pub y: f32,
}

impl Vector {
    pub fn add(self, rhs: Vector) -> Vector
        ensures { result ≡ add_of self rhs }
    {
        Vector {
            x: self.x + rhs.x,
            y: self.y + rhs.y,
        }
    }

    pub fn sub(self, rhs: Vector) -> Vector
        ensures { result ≡ sub_of self rhs }
    {
        Vector {
            x: self.x - rhs.x,
            y: self.y - rhs.y,
        }
    }

    // The vector times a number.
    pub fn mul(self, rhs: f32) -> Vector
        ensures { result ≡ mul_of self rhs }
    {
        Vector {
            x: self.x * rhs,
            y: self.y * rhs,
        }
    }

    pub fn gdot(self, rhs: Vector) -> f32
        ensures { result ≡ gdot_of self rhs }
    {
        self.x * rhs.x + self.y * rhs.y
    }

    // In the plane a cross matrix is a vector.
    pub fn gcross_matrix(self) -> Vector
        ensures { result ≡ gcross_matrix_of self }
    {
        Vector {
            x: -self.y,
            y: self.x,
        }
    }

    pub fn component_mul(self, rhs: Vector) -> Vector
        ensures { result ≡ component_mul_of self rhs }
    {
        Vector {
            x: self.x * rhs.x,
            y: self.y * rhs.y,
        }
    }

    // The root of the vector's dot with itself.
    pub fn simd_length(self) -> f32
        ensures { result ≡ length_of self }
    {
        sqrt(self.gdot(self))
    }
}
