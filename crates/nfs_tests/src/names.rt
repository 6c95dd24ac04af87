//! The fields of operations on files and names.

use crate::opens::is_held;
use nfs_compound::{Attributes, Bitmap, Create, CreateType, Op, StableHow};

/// The words 1, 5, 1 and `B`.
pub(crate) fn is_attributes(it: &Attributes<'_>) -> bool {
    is_five(&it.attrmask) && it.attr_vals.bytes() == b"b".as_slice()
}

fn is_five(it: &Bitmap<'_>) -> bool {
    it.words().len() == 1 && it.words()[0] == [0, 0, 0, 5]
}

/// The number of the type.
pub(crate) fn create_form(it: &Create<'_>) -> Option<u32> {
    if it.objname.bytes() != b"a".as_slice() || !is_attributes(&it.createattrs) {
        return None;
    }
    match &it.objtype {
        CreateType::Block(device) => ((device.specdata1, device.specdata2) == (7, 8)).then_some(3),
        CreateType::Character(device) => {
            ((device.specdata1, device.specdata2) == (7, 8)).then_some(4)
        }
        CreateType::Symlink { linkdata } => (linkdata.bytes() == b"b".as_slice()).then_some(5),
        CreateType::Other { objtype } => Some(*objtype),
    }
}

/// Whether the fields of an operation on a file are those of its vector.
pub(crate) fn is_of_files(op: &Op<'_>) -> bool {
    match op {
        Op::Access { access } => *access == 31,
        Op::Commit(it) => (it.offset, it.count) == (7, 8),
        Op::GetAttr { attr_request } => {
            attr_request.words().len() == 2
                && attr_request.words()[0] == [0, 0, 0, 5]
                && attr_request.words()[1] == [0, 0, 0, 6]
        }
        Op::Verify { obj_attributes } | Op::NVerify { obj_attributes } => {
            is_attributes(obj_attributes)
        }
        Op::Read(it) => is_held(&it.stateid) && (it.offset, it.count) == (1, 2),
        Op::Write(it) => {
            let is_range = it.offset == 1 && it.bytes.bytes() == b"a".as_slice();
            matches!(it.stable, StableHow::FileSync) && is_range && is_held(&it.stateid)
        }
        Op::SetAttr(it) => is_held(&it.stateid) && is_attributes(&it.obj_attributes),
        _ => false,
    }
}

/// Whether the fields of an operation on names are those of its vector.
pub(crate) fn is_of_names(op: &Op<'_>) -> bool {
    match op {
        Op::Link { newname: name }
        | Op::Lookup { objname: name }
        | Op::PutFh { object: name }
        | Op::Remove { target: name } => name.bytes() == b"a".as_slice(),
        Op::Rename(it) => it.oldname.bytes() == b"a".as_slice()
            && it.newname.bytes() == b"b".as_slice(),
        Op::ReadDir(it) => {
            let numbers = (it.cookie, it.dircount, it.maxcount) == (1, 4, 5);
            let is_six = it.attr_request.words().len() == 1
                && it.attr_request.words()[0] == [0, 0, 0, 6];
            numbers && is_six && it.cookieverf == [0, 0, 0, 2, 0, 0, 0, 3]
        }
        Op::GetFh
        | Op::LookupP
        | Op::PutPubFh
        | Op::PutRootFh
        | Op::ReadLink
        | Op::RestoreFh
        | Op::SaveFh => true,
        _ => false,
    }
}
