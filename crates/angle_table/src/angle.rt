use flex_interval::Iv;

/// Half of a bend's angle, each value in units of 2^-56.
#[derive(Clone, Copy)]
pub struct Half {
    /// The angle, in radians.
    pub a: Iv,
    /// Its sine.
    pub sin: Iv,
    /// Its cosine.
    pub cos: Iv,
}
