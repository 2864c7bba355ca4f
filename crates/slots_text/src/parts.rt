// Parts of what was lent, of which none runs past the end.

// The first bytes, so many as there are.
pub fn front(bytes: &[u8], length: usize) -> &[u8] {
    bytes.get(..length).unwrap_or(bytes)
}

// The bytes from a place on; after the end there are none.
pub fn behind(bytes: &[u8], at: usize) -> &[u8] {
    bytes.get(at..).unwrap_or(&[])
}
