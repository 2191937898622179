// Whole numbers below 2^448, as fourteen limbs of 32 bits, the lowest first.
ghost use Rattle.std.specs.Prelude.{◌≡◌, ◌*◌, ◌^◌, ◌<◌, leb};
ghost use Rattle.decimals.specs.Limbs.{value};

pub fn natural(w: u64) -> [u32; 14]
    ensures { value result ≡ w }
{
    let mut r = [0u32; 14];
    r[0] = (w % 4294967296) as u32;
    r[1] = (w / 4294967296) as u32;
    r
}

pub fn times(a: [u32; 14], k: u32) -> [u32; 14]
    requires { value a * k < 2 ^ 448 }
    ensures { value result ≡ value a * k }
{
    let mut r = [0u32; 14];
    let mut carry: u64 = 0;
    for i in 0..14 {
        let t = a[i] as u64 * k as u64 + carry;
        r[i] = (t % 4294967296) as u32;
        carry = t / 4294967296;
    }
    r
}

// Whether a is at most b: the highest limb in which they differ decides.
pub fn at_most(a: [u32; 14], b: [u32; 14]) -> bool
    ensures { result ≡ leb (value a) (value b) }
{
    for i in (0..14).rev() {
        if a[i] < b[i] {
            return true;
        }
        if b[i] < a[i] {
            return false;
        }
    }
    true
}

// a·k^n
pub fn times_power(a: [u32; 14], k: u32, n: u32) -> [u32; 14]
    requires { (0 < k) × (value a * k ^ n < 2 ^ 448) }
    ensures { value result ≡ value a * k ^ n }
{
    let mut r = a;
    for _ in 0..n {
        let next = times(r, k);
        r = next;
    }
    r
}

// a·10^n, nine powers at a time
pub fn times_ten(a: [u32; 14], n: u32) -> [u32; 14]
    requires { value a * 10 ^ n < 2 ^ 448 }
    ensures { value result ≡ value a * 10 ^ n }
{
    times_power(times_power(a, 1000000000, n / 9), 10, n % 9)
}

// a·2^n, sixteen powers at a time
pub fn shifted(a: [u32; 14], n: u32) -> [u32; 14]
    requires { value a * 2 ^ n < 2 ^ 448 }
    ensures { value result ≡ value a * 2 ^ n }
{
    times(times_power(a, 65536, n / 16), 1u32 << (n % 16))
}
