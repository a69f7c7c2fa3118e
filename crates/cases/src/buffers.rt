// The first bytes of a buffer.

// The first bytes of a buffer; all of them where there are fewer.
pub(crate) fn front(buffer: &[u8], size: usize) -> &[u8] {
    buffer.get(..size).unwrap_or(buffer)
}
