//! The head of a compound's result.

ghost use Rattle.std.specs.Prelude.{◌≤◌, [], length};
ghost use Rattle.nfs_xdr.specs.SheetState.{HasRoom, Puts};
ghost use Rattle.nfs_xdr.specs.declared.status.Status.TheVariants.{Nfs4Ok};
ghost use Rattle.nfs_xdr.specs.Limits.{opaque_limit};
ghost use Rattle.nfs_results.specs.Results.{spell_compound_head};
ghost use Rattle.nfs_results.specs.OpenHead.{HeadsAt, HasHead, SetsHead};

use nfs_xdr::{Sheet, Status};

/// The head of a compound's result that was put before the results were known: where its status and its count
/// of results stand on the sheet (RFC 8881 section 16.2.2).
#[derive(Clone, Copy)]
pub struct OpenHead {
    status_at: usize,
    count_at: usize,
}

impl OpenHead {
    /// Puts a head with this tag, of at most 1,024 bytes, the status NFS4_OK and no results.
    /// [`OpenHead::close`] sets the last two.
    pub fn put(tag: &[u8], out: &mut Sheet) -> OpenHead
        requires tag { length tag.now ≤ opaque_limit }
        requires room { HasRoom out.old (spell_compound_head Nfs4Ok tag.now 0) }
        ensures puts { Puts out.old out.new (spell_compound_head Nfs4Ok tag.now 0) }
        ensures places { HeadsAt result.status_at result.count_at out.old.bytes tag.now }
    {
        let status_at = out.len();
        write_compound_head(Status::Nfs4Ok, tag, 0, out);
        OpenHead {
            status_at,
            count_at: out.len() - 4,
        }
    }

    /// Sets the status and the count of the head. Everything else on the sheet stays as it is.
    pub fn close(self, status: Status, count: u32, out: &mut Sheet)
        requires stands { HasHead self.status_at self.count_at out.old.bytes }
        ensures { SetsHead self.status_at self.count_at status count out.old out.new }
    {
        out.set_u32(self.status_at, status.number());
        out.set_u32(self.count_at, count);
    }
}

/// Puts what stands in front of the results of a compound: its status, the tag of its call, of at most 1,024
/// bytes, and how many results follow (RFC 8881 section 16.2.2).
#[tactic(auto, using(nfs_xdr::proofs::Putting::putting))]
pub fn write_compound_head(status: Status, tag: &[u8], count: u32, out: &mut Sheet)
    requires tag { length tag.now ≤ opaque_limit }
    requires room { HasRoom out.old (spell_compound_head status tag.now count) }
    ensures { Puts out.old out.new (spell_compound_head status tag.now count) }
{
    if tag.is_empty() {
        put_untagged(status, count, out);
    } else {
        out.put_u32(status.number());
        out.put_opaque(tag);
        out.put_u32(count);
    }
}

/// Puts the head where the tag is empty, at once.
#[tactic(auto, unfolding(nfs_xdr::specs::Spelling::number))]
fn put_untagged(status: Status, count: u32, out: &mut Sheet)
    requires room { HasRoom out.old (spell_compound_head status [] count) }
    ensures { Puts out.old out.new (spell_compound_head status [] count) }
{
    let words = [status.number().to_be_bytes(), [0; 4], count.to_be_bytes()];
    out.put_bytes(words.as_flattened());
}
