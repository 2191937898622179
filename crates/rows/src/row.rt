// What a row of any joint has, in the plane or in space. The Rust writes it once and compiles it once for each dimension.
ghost use Rattle.std.specs.Prelude.{◌≡◌, Bool, Float};

pub trait Row: Copy {
    // Both bodies' inverse masses, which a group takes from its first row.
    type Masses: Copy;

    ghost with_impulse: { Self → Float → Self };

    ghost im_sum: { Self → Self.Masses };

    ghost head: { Self.Masses → Self → Self };

    ghost is_lock: { Self → Bool };

    ghost inv_dot: { Self.Masses → Self → Float };

    ghost pair: { Self.Masses → Float → Self → Self → Self };

    // The row with another impulse.
    fn with_impulse(self, impulse: f32) -> Self
        ensures { result ≡ with_impulse self impulse };

    fn im_sum(self) -> Self::Masses
        ensures { result ≡ im_sum self };

    // The row with its inverse left-hand side.
    fn head(self, imsum: Self::Masses) -> Self
        ensures { result ≡ head imsum self };

    // Whether a row is a lock, or a motor with a lock's bounds.
    fn is_lock(self) -> bool
        ensures { result ≡ is_lock self };

    // The inverse of the row's product with itself.
    fn inv_dot(self, imsum: Self::Masses) -> f32
        ensures { result ≡ inv_dot imsum self };

    // The row made orthogonal to the lock c_j; inv_dot_jj is the inverse of that row's product with itself.
    fn pair(self, imsum: Self::Masses, inv_dot_jj: f32, c_j: Self) -> Self
        ensures { result ≡ pair imsum inv_dot_jj c_j self };
}
