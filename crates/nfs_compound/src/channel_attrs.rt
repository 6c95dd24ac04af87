//! The attributes of a channel: RFC 8881 section 18.36.1.

ghost use Rattle.nfs_xdr.specs.Readers.{ReadsPartBy};
ghost use Rattle.nfs_compound.specs.ChannelAttrs.{channel_attrs};

use nfs_xdr::{Cursor, Unreadable};

/// What a channel of a session can bear (RFC 8881 section 18.36.1). Sizes are in bytes.
#[derive(Clone, Copy)]
pub struct ChannelAttrs {
    pub headerpadsize: u32,
    pub maxrequestsize: u32,
    pub maxresponsesize: u32,
    pub maxresponsesize_cached: u32,
    pub maxoperations: u32,
    /// As many slots as the channel has.
    pub maxrequests: u32,
    pub rdma_ird: Option<u32>,
}

impl ChannelAttrs {
    /// Reads the attributes of a channel. Unreadable where they are cut or `rdma_ird` is more than one number.
    #[tactic(auto, unfolding(crate::specs::ChannelAttrs::channel_attrs))]
    pub fn read(c: &mut Cursor<'_>) -> Result<ChannelAttrs, Unreadable>
        ensures { ReadsPartBy (λ a. a) result (channel_attrs.read c.old) c.new }
    {
        let headerpadsize = c.u32()?;
        let maxrequestsize = c.u32()?;
        let maxresponsesize = c.u32()?;
        let maxresponsesize_cached = c.u32()?;
        let maxoperations = c.u32()?;
        let maxrequests = c.u32()?;
        let rdma_ird = if c.flag()? { Some(c.u32()?) } else { None };
        Ok(ChannelAttrs {
            headerpadsize,
            maxrequestsize,
            maxresponsesize,
            maxresponsesize_cached,
            maxoperations,
            maxrequests,
            rdma_ird,
        })
    }
}
