// Elements of a field, held as their numbers.
ghost use Rattle.std.specs.Prelude.{◌^◌, ◌<◌};

// The element with the number `value` in a field of width W.
#[derive(Clone, Copy)]
pub struct Elem<const W: u32> {
    pub(crate) value: u32,
    ghost small: { value < 2 ^ W },
}
