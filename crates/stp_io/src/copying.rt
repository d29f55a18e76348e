//! Bytes of a file in memory, from an offset.

ghost use Rattle.std.specs.Prelude.{◌≡◌, ◌<◌, ◌≤◌, ◌-◌, length, min};
ghost use Rattle.stp_io.specs.Store.{Reads};

/// Copies the next bytes of a file from an offset into a buffer, and tells how many.
pub fn copy_from(bytes: &[u8], offset: u64, buf: &mut [u8]) -> usize
    requires { 0 < length buf.old }
    ensures count { result ≡ min (length buf.old) (length bytes.now - offset) }
    ensures within { result ≤ length buf.new }
    ensures read { Reads bytes.now offset result buf.new }
{
    if offset >= bytes.len() as u64 {
        return 0;
    }
    let rest = &bytes[offset as usize..];
    let count = rest.len().min(buf.len());
    buf[..count].copy_from_slice(&rest[..count]);
    count
}
