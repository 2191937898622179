// What a seed draws.
ghost use Rattle.std.specs.Prelude.{◌≡◌};
ghost use Rattle.seeded.specs.Draws.{next_of, mixed_of, draw, number_of};

// The next state: 2654435769 added with wrap.
pub fn next(s: u32) -> u32
    ensures { result ≡ next_of s }
{
    s.wrapping_add(2654435769)
}

// The draw of a state.
pub fn mixed(s: u32) -> u32
    ensures { result ≡ mixed_of s }
{
    let z = s ^ (s >> 15);
    z ^ (z << 7)
}

// Draw k of a seed, counted from 0. It starts at the seed each time, so that no draw depends on the order in which others are asked for.
pub fn draw(seed: u32, k: u32) -> u32
    ensures { result ≡ draw seed k }
{
    let mut s = seed;
    for _i in 0..k {
        s = next(s);
    }
    mixed(next(s))
}

// A number of the model: (draw mod 2001 − 1000)/8.
pub fn number(d: u32) -> f32
    ensures { result ≡ number_of d }
{
    let k = d % 2001;
    if k < 1000 {
        -std::num::nearest_u32_to_f32(1000 - k) / 8.0
    } else {
        std::num::nearest_u32_to_f32(k - 1000) / 8.0
    }
}
