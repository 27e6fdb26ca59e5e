//! The order of strings of bytes, eight bytes at a time.
ghost use Rattle.std.specs.Prelude.{◌≡◌, length, take};
ghost use Rattle.std.specs.Ordering.{nat_cmp, is_le};
ghost use Rattle.std.specs.Cmp.Lexicographic.{slice_cmp};

use std::cmp::Ordering;

/// How eight bytes compare with eight: as the numbers that they spell, the greatest byte first.
pub(crate) fn compare_eight(first: &[u8; 8], second: &[u8; 8]) -> Ordering
    ensures { result ≡ slice_cmp nat_cmp first.now second.now }
{
    u64::from_be_bytes(*first).cmp(&u64::from_be_bytes(*second))
}

/// Whether the first so many of eight bytes, as many as are counted, compare less than or equal to those of the other
/// eight: as the numbers that they spell.
pub(crate) fn eight_before_past(first: &[u8; 8], second: &[u8; 8], len: usize) -> bool
    ensures { result ≡ is_le (slice_cmp nat_cmp (take len first.now) (take len second.now)) }
{
    if len == 0 {
        return true;
    }
    let here = u64::from_be_bytes(*first);
    let there = u64::from_be_bytes(*second);
    if len >= 8 {
        return here.cmp(&there).is_le();
    }
    let past = 64 - 8 * len;
    (here >> past).cmp(&(there >> past)).is_le()
}

/// Whether a string of bytes begins with the other or stands before it.
pub(crate) fn before_past(bytes: &[u8], root: &[u8]) -> bool
    ensures { result ≡ is_le (slice_cmp nat_cmp (take (length root.now) bytes.now) root.now) }
{
    if root.len() <= bytes.len() {
        return compare(&bytes[..root.len()], root).is_le();
    }
    compare(bytes, root).is_le()
}

/// How two strings of bytes compare, one after the other, a beginning first.
pub(crate) fn compare(first: &[u8], second: &[u8]) -> Ordering
    ensures { result ≡ slice_cmp nat_cmp first.now second.now }
{
    let mut a = first;
    let mut b = second;
    while let (Some((x, behind)), Some((y, after))) = (
        a.split_first_chunk::<8>(),
        b.split_first_chunk::<8>(),
    ) {
        match compare_eight(x, y) {
            Ordering::Equal => {
                a = behind;
                b = after;
            }
            unequal => return unequal,
        }
    }
    a.cmp(&b)
}
