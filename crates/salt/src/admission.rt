// Whether a number is admitted as a salt.
ghost use Rattle.std.specs.Prelude.{◌≡◌};
ghost use Rattle.salt.specs.Admitted.{admitted};

use field::Field;

// Whether `a` is admitted as a salt for `b` blocks. Its first b powers are nonzero and all different
// just when a is nonzero and none of the powers before the b-th is 1.
pub fn admits<F: Field>(a: u32, b: usize) -> bool
    ensures { result ≡ admitted F.WIDTH F.mul b a }
{
    // `?` has no form for a `bool`
    let Some(x) = F::element(a) else {
        return false;
    };
    if a == 0 {
        return b == 0;
    }
    let mut power = x;
    // As `successors(..).take(..).all(..)` it is no plainer, since b may be 0.
    for _ in 1..b {
        if F::number_of(power) == 1 {
            return false;
        }
        power = F::multiply(x, power);
    }
    true
}
