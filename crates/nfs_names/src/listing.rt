//! Operations that put bytes of the tree onto the sheet (RFC 8881 sections 18.23 and 18.24).

ghost use Rattle.std.specs.Prelude.{◌≡◌, ◌+◌, ◌≤◌, ◌==◌, Some, length, nat_le};
ghost use Rattle.std.specs.List.{flat_map};
ghost use Rattle.nfs_xdr.specs.SheetState.{Puts};
ghost use Rattle.nfs_xdr.specs.Limits.{most_transfer};
ghost use Rattle.nfs_results.specs.Largest.{given};
ghost use Rattle.nfs_results.specs.declared.res.Res.TheVariants as Res;
ghost use Rattle.nfs_results.specs.Results.{spell_result};
ghost use Rattle.nfs_results.specs.Straight.{entry_head, entry_text};
ghost use Rattle.nfs_tree.specs.Bytes.{part};
ghost use Rattle.nfs_tree.specs.Files.{most_text, size_at, object_at};
ghost use Rattle.nfs_tree.specs.Listing.{listed_of};
ghost use Rattle.nfs_attrs.specs.Attributes.{spell_attrs};
ghost use Rattle.nfs_names.specs.State.{state_of};
ghost use Rattle.nfs_names.specs.Comes.{Comes};
ghost use Rattle.nfs_names.specs.Fronts as front;
ghost use Rattle.nfs_names.specs.ReadLink as of_read_link;
ghost use Rattle.nfs_names.specs.ReadDir as of_read_dir;
ghost use Rattle.nfs_names.specs.Lists.{PutsWithin, Lists};

use crate::attributes::{about, mask_in};
use crate::checks::{current, is_link, permits, put_refusal};
use crate::context::Context;
use crate::node::Node;
use crate::store::Store;
use nfs_attrs::{About, Asked, Mask, Want, attrs_len, write_asked};
use nfs_compound::{OpNum, ReadDir};
use nfs_results::{given, write_done_head, write_entry, write_list_end, write_read_dir_head};
use nfs_tree::{Entry, Object, Size, Tree};
use nfs_xdr::{Sheet, Status};

/// The symbolic link that is to be read.
fn judge_link(store: &Store, context: &Context<'_>) -> Result<Node, Status>
    ensures { result ≡ front.reading_link (state_of store.now) context.now }
{
    let d = current(store, context)?;
    if !is_link(d.object.kind) {
        return Err(Status::WrongType);
    }
    Ok(d)
}

/// Puts the text of a symbolic link, as READLINK answers it.
fn put_text(tree: &Tree, number: u64, out: &mut Sheet)
    requires { length out.old.bytes + 1036 ≤ out.old.room }
    ensures { Puts out.old out.new (spell_result (Res.ReadLink (part tree.now number 0 most_text))) }
{
    write_done_head(OpNum::ReadLink, out);
    tree.read(number, 0, out, Tree::MAX_TEXT);
}

/// READLINK.
#[tactic(auto, unfolding(crate::specs::ReadLink::read_link))]
pub(crate) fn read_link(store: &Store, context: &Context<'_>, out: &mut Sheet) -> Status
    requires { length out.old.bytes + 1036 ≤ out.old.room }
    ensures { Comes (of_read_link.read_link (state_of store.now) context.now) out.old out.new result (state_of store.now) context.now }
{
    match judge_link(store, context) {
        Ok(d) => {
            put_text(&store.tree, d.number, out);
            Status::Nfs4Ok
        }
        Err(status) => put_refusal(OpNum::ReadLink, status, out),
    }
}

/// The directory that is to be listed.
fn judge_listing(store: &Store, context: &Context<'_>, asked: &ReadDir<'_>) -> Result<Node, Status>
    ensures { result ≡ front.reading_dir (state_of store.now) context.now asked.now }
{
    let d = current(store, context)?;
    if !d.object.kind.is_directory() {
        return Err(Status::NotDir);
    }
    if !permits(context, &d, Want::READ) {
        return Err(Status::Access);
    }
    if mask_in(&asked.attr_request).asks_set_only() {
        return Err(Status::Inval);
    }
    if asked.cookieverf.as_slice() != [0; 8].as_slice() {
        return Err(Status::NotSame);
    }
    if asked.cookie == 1 || asked.cookie == 2 {
        return Err(Status::BadCookie);
    }
    if asked.maxcount < 16 {
        return Err(Status::TooSmall);
    }
    Ok(d)
}

/// How many bytes an entry takes.
fn entry_len(name: &[u8], object: &Object, about: &About, asked: Mask) -> usize
    ensures { result ≡ length (entry_head 0 name.now) + length (spell_attrs asked about.now object.now) }
{
    16 + name.len() + (4 - name.len() % 4) % 4 + attrs_len(object, about, asked)
}

/// The most bytes that an entry takes beside its name: cookie and length, padding, attributes.
const MOST_BESIDE_NAME: usize = 16 + 3 + 632;

/// Whether an entry takes no more than `room` bytes. It is measured only where the largest might take more.
fn fits(name: &[u8], object: &Object, about: &About, asked: &Asked, room: usize) -> bool
    ensures { result ≡ nat_le (length (entry_head 0 name.now) + length (spell_attrs asked.now about.now object.now)) room }
{
    name.len() + MOST_BESIDE_NAME <= room || entry_len(name, object, about, asked.mask()) <= room
}

/// Puts an entry with the attributes of its object, if it takes no more than `room` bytes.
fn put_entry(
    store: &Store,
    entry: &Entry<'_>,
    object: &Object,
    size: Size,
    asked: &mut Asked,
    room: usize,
    out: &mut Sheet,
) -> bool
    requires there { Some object.now ≡ object_at store.now.tree entry.now.number }
    requires size { size ≡ size_at store.now.tree entry.now.number }
    requires few { room ≤ most_transfer }
    requires room { length out.old.bytes + room ≤ out.old.room }
    ensures put { PutsWithin result room out.old out.new (entry_text (of_read_dir.entry_of (state_of store.now) asked.old (listed_of entry.now))) }
    ensures same { asked.new ≡ asked.old }
{
    let node = Node {
        number: entry.number,
        object: *object,
    };
    let about = about(store, &node, size, asked.mask());
    if !fits(entry.name, object, &about, asked, room) {
        return false;
    }
    write_entry(entry.cookie, entry.name, out);
    write_asked(object, &about, asked, out);
    true
}

/// Puts the entries that are left, as many as fit, and answers whether these are all.
fn put_entries(store: &Store, place: &Node, asked: &ReadDir<'_>, out: &mut Sheet) -> bool
    requires count { 16 ≤ asked.now.maxcount }
    requires room { length out.old.bytes + given asked.now.maxcount ≤ out.old.room + 16 }
    ensures put { Puts out.old out.new (flat_map entry_text (of_read_dir.fitting (state_of store.now) asked.now place.now)) }
    ensures all { result ≡ (length (of_read_dir.fitting (state_of store.now) asked.now place.now) == length (of_read_dir.left (state_of store.now) asked.now place.now)) }
{
    store.tree.kept();
    let mut wanted = Asked::new(mask_in(&asked.attr_request));
    let mut room = given(asked.maxcount) as usize - 16;
    let mut objects = store.tree.in_turn(place.number);
    let mut listing = store.tree.list(place.number, asked.cookie);
    while let Some(entry) = listing.next() {
        let Some((object, size)) = objects.object_and_size(entry.number) else {
            return false;
        };
        let before = out.len();
        if !put_entry(store, &entry, object, size, &mut wanted, room, out) {
            return false;
        }
        room -= out.len() - before;
    }
    true
}

/// Puts a listing, as READDIR answers it, if an entry fits or none is left.
fn put_listing(store: &Store, place: &Node, asked: &ReadDir<'_>, out: &mut Sheet) -> Status
    requires count { 16 ≤ asked.now.maxcount }
    requires room { length out.old.bytes + (8 + given asked.now.maxcount) ≤ out.old.room }
    ensures { Lists result (of_read_dir.fits_none (state_of store.now) asked.now place.now) (of_read_dir.listed (state_of store.now) asked.now place.now) out.old out.new }
{
    let start = out.len();
    write_read_dir_head(&[0; 8], out);
    let before = out.len();
    let whole = put_entries(store, place, asked, out);
    if !whole && out.len() == before {
        out.cut(start);
        return put_refusal(OpNum::ReadDir, Status::TooSmall, out);
    }
    write_list_end(whole, out);
    Status::Nfs4Ok
}

/// READDIR.
#[tactic(auto, unfolding(crate::specs::ReadDir::read_dir))]
pub(crate) fn read_dir(
    store: &Store,
    context: &Context<'_>,
    asked: &ReadDir<'_>,
    out: &mut Sheet,
) -> Status
    requires { length out.old.bytes + (8 + given asked.now.maxcount) ≤ out.old.room }
    ensures { Comes (of_read_dir.read_dir (state_of store.now) context.now asked.now) out.old out.new result (state_of store.now) context.now }
{
    match judge_listing(store, context, asked) {
        Ok(d) => put_listing(store, &d, asked, out),
        Err(status) => put_refusal(OpNum::ReadDir, status, out),
    }
}
