ghost use Rattle.std.specs.Prelude.{◌≡◌, ℕ, ◌+◌, ◌^◌, ◌<◌, ◌≤◌, slice_index};
ghost use Rattle.dayfile.specs.Bytes.{byte_at, word_at, signed_at};

use std::array;

// An offset stays a number beside the file, with its bound in a `requires`: it is also told as the place of a fault.

/// The byte at an offset; past the end it reads as 0.
pub(crate) fn byte_at(file: &[u8], at: usize) -> u8
    ensures { result ≡ byte_at file.now at }
{
    file.get(at).copied().unwrap_or(0)
}

/// The bytes from an offset on, as many as are asked for.
pub(crate) fn bytes_at<const N: usize>(file: &[u8], at: usize) -> [u8; N]
    requires { at + N ≤ 2 ^ 62 }
    ensures { (i : ℕ) → i < N → slice_index result i ≡ byte_at file.now (at + i) }
{
    array::from_fn(|i| byte_at(file, at + i))
}

/// The unsigned number of four bytes at an offset, lowest byte first.
pub(crate) fn u32_at(file: &[u8], at: usize) -> u32
    requires { at < 2 ^ 61 }
    ensures { result ≡ word_at file.now at }
{
    u32::from_le_bytes(bytes_at(file, at))
}

/// The same bytes as a signed number.
pub(crate) fn i64_at(file: &[u8], at: usize) -> i64
    requires { at < 2 ^ 61 }
    ensures { result ≡ signed_at file.now at }
{
    i64::from(i32::from_le_bytes(bytes_at(file, at)))
}
