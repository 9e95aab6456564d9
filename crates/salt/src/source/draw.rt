// The draw: the first admitted salt in the noise.
ghost use Rattle.std.specs.Prelude.{◌≡◌};
ghost use Rattle.salt.specs.Draws.{Draws};

use super::{DrawFault, Noise, Salt};
use crate::admission::admits;
use bits::get_bits;
use field::Field;

impl Noise<'_> {
    // The first admitted salt for the field and `b` blocks among the groups from the place on.
    // The place is behind its group after; it stays where there is none.
    pub fn draw<F: Field>(&mut self, b: usize) -> Result<Salt, DrawFault>
        ensures kept { self.new.bytes.now ≡ self.old.bytes.now }
        ensures drawn { Draws F.WIDTH F.mul b self.old.bytes.now self.old.place result self.new.place }
    {
        let width = F::WIDTH;
        if !(3..=24).contains(&width) {
            return Err(DrawFault::Unfit);
        }
        if !(1..=16).contains(&b) {
            return Err(DrawFault::Blocks);
        }
        let size = width.div_ceil(8) as usize;
        let mut rest = &self.bytes[self.place..];
        // the project asks for a loop that passes groups over inside and yields the salt by `break`
        let salt = loop {
            let (group, after) = rest.split_at_checked(size).ok_or(DrawFault::NoNoise)?;
            rest = after;
            let candidate = get_bits(group, 0, width);
            if !admits::<F>(candidate, b) {
                continue;
            }
            break Salt { value: candidate };
        };
        self.place = self.bytes.len() - rest.len();
        Ok(salt)
    }
}
