//! Filehandles (RFC 8881 section 4).

ghost use Rattle.std.specs.Prelude.{◌≡◌, ◌≢◌, ◌<◌, ◌^◌, ℕ, MatchResult, Some, None};
ghost use Rattle.nfs_attrs.specs.Handle.{handle_of};
ghost use Rattle.nfs_attrs.specs.Wire.{nfs_fh4};

use nfs_xdr::Cursor;

/// The filehandle of an object: 16 bytes on the wire.
#[derive(Clone, Copy, Debug, PartialEq, Eq)]
pub struct Handle {
    /// The instance of the server that gave it.
    pub instance: u32,
    /// The object's number.
    pub number: u64,
}

/// The bytes are no filehandle that any instance of this server gives: NFS4ERR_BADHANDLE.
#[derive(Clone, Copy, Debug, PartialEq, Eq)]
pub struct BadHandle;

impl Handle {
    /// The bytes of the filehandle: the instance (4 bytes), 4 zero bytes, the object's number (8 bytes), big-endian.
    #[tactic(auto, unfolding(nfs_xdr::specs::Spelling::number, nfs_xdr::specs::Spelling::hyper))]
    pub fn bytes(&self) -> [u8; 16]
        ensures { result ≡ (nfs_fh4 self.now).bytes }
    {
        let [a, b, c, d] = self.instance.to_be_bytes();
        let [e, f, g, h, i, j, k, l] = self.number.to_be_bytes();
        [a, b, c, d, 0, 0, 0, 0, e, f, g, h, i, j, k, l]
    }

    /// The filehandle that these bytes are, whatever instance gave it and whether its object is there or not.
    ///
    /// [`BadHandle`] where they are not 16 bytes, or the middle four are not zero.
    #[tactic(auto, unfolding(crate::specs::Handle::handle))]
    pub fn read(bytes: &[u8]) -> Result<Handle, BadHandle>
        ensures exact { MatchResult result (λ h. handle_of bytes.now ≡ Some h) (λ _. handle_of bytes.now ≡ None) }
    {
        let mut cursor = Cursor::new(bytes);
        match (cursor.u32(), cursor.u32(), cursor.u64()) {
            (Ok(instance), Ok(0), Ok(number)) if cursor.left() == 0 => Ok(Handle {
                instance,
                number,
            }),
            _ => Err(BadHandle),
        }
    }
}
