use report_frame::Value;

/// How a group comes out.
#[derive(Debug, Drop, PartialEq, Eq)]
pub enum Outcome {
    /// Enough points lie on the polynomials of a key, and the value under it recomputes the head.
    Opened {
        value: Value,
        /// How many of the points left lie on them.
        agree: u32,
    },
    /// There are fewer points left than the threshold.
    Few,
    /// No key has enough of the points on its polynomials.
    NoLine,
    /// The value under the key doesn't recompute the head.
    BadValue,
}
