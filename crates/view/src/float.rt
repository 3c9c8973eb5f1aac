// A + B·root two over a power of two as an f64.
ghost use Rattle.std.specs.Prelude.{◌≡◌, ◌≤◌, ◌^◌, nat_abs};
ghost use Rattle.std.specs.Float.{binary64};
ghost use Rattle.std.specs.Float.Ieee.{of_int};
ghost use Rattle.view.specs.Meaning.Surd.{over as surd};
ghost use Rattle.view.specs.Meaning.Near.{half^, Shows};
ghost use Rattle.view.specs.Size.{Fit};

// A whole number, exactly.
fn cast(a: i64) -> f64
    requires { nat_abs a ≤ 2 ^ 53 }
    ensures { result ≡ of_int binary64 a }
{
    a as f64
}

// 2 to the -s, exactly.
fn power(s: u8) -> f64
    requires { s ≤ 52 }
    ensures { result ≡ half^ s }
{
    1.0 / ((1u64 << s) as f64)
}

// One rounded product by the root-two constant, one rounded sum, one exact scaling.
fn near(a: i64, b: i64, s: u8) -> f64
    requires { (s ≤ 52) × (nat_abs a ≤ 2 ^ s) × (nat_abs b ≤ 2 ^ s) }
    ensures { Shows (record { A = a; B = b; s = s }) result }
{
    let sum = cast(a) + cast(b) * 1.4142135623730951;
    sum * power(s)
}

// u + v over root two, over root two to the k.
pub(crate) fn over(k: u8, u: i64, v: i64) -> f64
    requires { Fit (surd k u v) }
    ensures { Shows (surd k u v) result }
{
    let s = (k + 2) / 2;
    if k % 2 == 0 {
        near(u + u, v, s)
    } else {
        near(v, u, s)
    }
}
