//! What a text is answered by an analysis.

/// The answer to a text.
#[derive(Drop)]
pub enum Answer {
    /// The bytes of its report, and how many nodes, cases with a certificate and cases without one stand in it.
    Report {
        bytes: Vec<u8>,
        nodes: u32,
        certified: u32,
        uncertified: u32,
    },
    /// It is refused by this number, 1 to 17, at this line, counted from 1.
    Refused {
        number: u8,
        line: u32,
    },
}
