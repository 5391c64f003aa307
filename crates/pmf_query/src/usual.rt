//! Records of events that a log has most of: their names are known by how they begin.

ghost use Rattle.std.specs.Prelude.{IfSome};
ghost use Rattle.pmf_query.specs.Usual.{IsUsual};

/// The index of the record's name among the known ones, where the record begins with the name of an event that a log has often, and that
/// asserts nothing.
pub fn usual_name(text: &[u8]) -> Option<usize>
    ensures { IfSome result (IsUsual text.now) }
{
    if text.starts_with(b"STORE;") {
        return Some(0);
    }
    if text.starts_with(b"FLUSH;") {
        return Some(1);
    }
    if text == b"FENCE".as_slice() {
        return Some(2);
    }
    if text.starts_with(b"PMT.TXADD;") {
        return Some(8);
    }
    None
}
