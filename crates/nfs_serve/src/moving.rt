//! A read that fills a buffer, and a write that puts all of one.
ghost use Rattle.std.specs.Prelude.{◌≡◌, ◌<◌, ◌≤◌, length, take, true, false, ◌⊎◌};
ghost use Rattle.std.specs.Io.KnownBytes.{Consumes, IsAtEnd};
ghost use Rattle.nfs_serve.specs.Ends.{Writes};

use crate::{Sink, Source};

/// The writer has failed.
#[derive(Clone, Copy, Debug, PartialEq, Eq)]
pub struct WriteFailed;

/// Reads until the buffer is full or the reader has ended or failed, and answers how many bytes came.
/// An interrupted read counts as failed.
#[inline]
pub fn fill<R: Source>(r: &mut R, buf: &mut [u8]) -> usize
    requires failed { R.has_failed r.old ≡ false }
    requires ended { R.has_ended r.old ≡ false }
    ensures bound { result ≤ length buf.new }
    ensures bytes { Consumes (R.left r.old) (R.left r.new) (take result buf.new) }
    ensures full { result ≡ length buf.new → (R.has_failed r.new ≡ false) × (R.has_ended r.new ≡ false) }
    ensures short { result < length buf.new → (R.has_failed r.new ≡ true) ⊎ ((R.has_failed r.new ≡ false) × (R.has_ended r.new ≡ true) × IsAtEnd (R.left r.new)) }
{
    if buf.is_empty() {
        return 0;
    }
    // A reader with a buffer nearly always fills this one at once.
    match read_some(r, buf) {
        0 => 0,
        n if n == buf.len() => n,
        n => n + fill_rest(r, &mut buf[n..]),
    }
}

/// The same behind a read that was short.
fn fill_rest<R: Source>(r: &mut R, buf: &mut [u8]) -> usize
    requires failed { R.has_failed r.old ≡ false }
    requires ended { R.has_ended r.old ≡ false }
    ensures bound { result ≤ length buf.new }
    ensures bytes { Consumes (R.left r.old) (R.left r.new) (take result buf.new) }
    ensures full { result ≡ length buf.new → (R.has_failed r.new ≡ false) × (R.has_ended r.new ≡ false) }
    ensures short { result < length buf.new → (R.has_failed r.new ≡ true) ⊎ ((R.has_failed r.new ≡ false) × (R.has_ended r.new ≡ true) × IsAtEnd (R.left r.new)) }
{
    let mut at = 0;
    while at < buf.len() {
        match read_some(r, &mut buf[at..]) {
            0 => return at,
            n => at += n,
        }
    }
    at
}

/// Reads once, and answers how many bytes came: none where the reader has ended or failed.
fn read_some<R: Source>(r: &mut R, buf: &mut [u8]) -> usize
    requires failed { R.has_failed r.old ≡ false }
    requires ended { R.has_ended r.old ≡ false }
    requires room { 0 < length buf.old }
    ensures bound { result ≤ length buf.new }
    ensures bytes { Consumes (R.left r.old) (R.left r.new) (take result buf.new) }
    ensures some { 0 < result → (R.has_failed r.new ≡ false) × (R.has_ended r.new ≡ false) }
    ensures none { result ≡ 0 → (R.has_failed r.new ≡ true) ⊎ ((R.has_failed r.new ≡ false) × (R.has_ended r.new ≡ true) × IsAtEnd (R.left r.new)) }
{
    match r.read(buf) {
        Ok(n) => n,
        Err(_) => 0,
    }
}

/// Writes all of the bytes, or a front of them where the writer fails.
pub fn put<W: Sink>(w: &mut W, bytes: &[u8]) -> Result<(), WriteFailed>
    requires { W.has_failed w.old ≡ false }
    ensures { Writes result (W.held w.old) (W.held w.new) bytes.now (W.has_failed w.new) }
{
    let mut rest = bytes;
    while !rest.is_empty() {
        match w.write(rest) {
            Ok(n) => rest = &rest[n..],
            Err(_) => return Err(WriteFailed),
        }
    }
    Ok(())
}
