// What an example gives.
use lending::listed;

// The n values of a buffer: the first ones, the last one if there are more than four, and zeros.
pub(crate) fn write_ends<T: Copy>(front: &[T], last: T, n: usize, zero: T, out: &mut [T]) {
    listed::write(front, zero, out);
    if 4 < n && n <= out.len() {
        out[n - 1] = last;
    }
}
