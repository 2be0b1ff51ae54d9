//! Values that go by a call.

/// Drops a value. The prover walks a value of many parts that goes out of scope at the end of a
/// function part by part, on each way out. A call is one step, and its type's own drop is proved
/// once.
pub fn dispose<T: Drop>(_value: T) {}
