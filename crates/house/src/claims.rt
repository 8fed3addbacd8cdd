// Sets of claims.
ghost use Rattle.std.specs.Prelude.{◌^◌, ◌<◌};

mod label;
mod making;

// A set of numbers 0 to 63, one bit for each.
#[derive(Clone, Copy, PartialEq, Eq, Debug, Hash)]
pub struct Claims {
    bits: u64,
    ghost fits: { bits < 2 ^ 64 },
}
