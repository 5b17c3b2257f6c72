// How many parity words a column has.

/// How many parity words each column has.
#[derive(Clone, Copy, Debug, PartialEq, Eq)]
pub enum Npar {
    Four,
    Eight,
    Sixteen,
    ThirtyTwo,
}
