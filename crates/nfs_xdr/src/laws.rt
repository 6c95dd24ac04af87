//! Laws of the wire's language and of what is put together in it.

ghost use Rattle.std.specs.Prelude.{◌≡◌, Some, ℕ, ◌<◌, ◌^◌};
ghost use Rattle.nfs_xdr.specs.Text.{uint32, uint64, bool, enum, fixed, opaque, IsReadable, BeginsNoOther};
ghost use Rattle.nfs_xdr.specs.declared.status.Status.{Status};
ghost use Rattle.nfs_xdr.specs.Status.{status_number};
ghost use Rattle.nfs_xdr.specs.StatusCodec.{status_of};
ghost use Rattle.nfs_xdr.specs.Wire.{nfstime4};
ghost use Rattle.nfs_xdr.specs.Format.{Format, IsFormat, text};

/// Each type of RFC 4506 can be read: what is given is just what has its text at the front of the bytes.
pub fn items()
    ensures numbers { IsReadable uint32 }
    ensures hypers { IsReadable uint64 }
    ensures flags { IsReadable bool }
    ensures fixed { (n : ℕ) → IsReadable (fixed n) }
    ensures opaques { (limit : ℕ) → limit < 2 ^ 32 → IsReadable (opaque limit) }
{}

/// Each status is read from its own number and no other, and a moment from its seconds and nanoseconds.
pub fn statuses()
    ensures status { IsReadable (λ (s : Status). enum (status_number s)) }
    ensures own { (s : Status) → status_of (status_number s) ≡ Some s }
    ensures none_else { (n : ℕ) (s : Status) → status_of n ≡ Some s → n ≡ status_number s }
    ensures times { IsReadable nfstime4 }
{}

/// So can all that is put together from them, one behind the other, optional, in arrays or behind a number; and no text begins another of
/// the same format.
pub fn formats()
    ensures read { (f : Format) → IsFormat f → IsReadable (text f) }
    ensures prefix { (f : Format) → IsFormat f → BeginsNoOther (text f) }
{}
