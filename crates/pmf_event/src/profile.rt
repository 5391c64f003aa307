//! The two rules by which order assertions are judged.

/// By which rule an order assertion judges two bytes of one cache line.
///
/// The stores of one thread to one line become durable in program order (x86 persistency, as in
/// Raad et al., POPL 2020). The two profiles differ in whether a pair may rest on that.
#[derive(Clone, Copy, Debug, PartialEq, Eq)]
pub enum Profile {
    /// A pair is ordered by write-backs and fences alone.
    One,
    /// A pair on one line is also ordered where the first byte was stored before the second.
    Two,
}
