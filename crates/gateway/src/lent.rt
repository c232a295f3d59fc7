// As much of a buffer as a line names. (No heap: every buffer is an array with room for the longest answer.)

// The first n entries of a buffer, or all where there are fewer.
pub fn lend<T>(buffer: &mut [T], n: usize) -> &mut [T] {
    let n = n.min(buffer.len());
    &mut buffer[..n]
}
