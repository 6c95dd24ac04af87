//! The end of a client (RFC 8881 sections 8.3 and 8.4.2).

ghost use Rattle.std.specs.Prelude.{◌≡◌, ◌==◌, false, not, find};
ghost use Rattle.std.specs.Option.{option_map_or};
ghost use Rattle.nfs_opens.specs.TableInvariants.{IsTable};
ghost use Rattle.nfs_names.specs.State.{state_of, is_open, is_used};
ghost use Rattle.nfs_names.specs.StoreInvariants.{IsRooted, IsStore};
ghost use Rattle.nfs_names.specs.Ending.{has_open, with_opens, without_opens, without_own, staying};

use crate::store::Store;
use nfs_tree::Tree;

impl Store {
    /// The opens, lock states and locked bytes of every store are well formed; this does nothing but say so to proofs.
    pub fn kept(&self)
        ensures { IsTable (state_of self.now).opens }
    {
        self.opens.kept();
    }

    /// Whether an open of the client stands.
    pub fn has_open(&self, client: u64) -> bool
        ensures found { result ≡ has_open (state_of self.now) client }
        ensures kept { IsTable (state_of self.now).opens }
    {
        self.opens.has_open(client)
    }

    /// The client's opens go, with its lock states and the bytes that they hold, and each object but the root that then
    /// has neither a row nor an open. It takes no memory.
    pub fn drop_client(&mut self, client: u64)
        requires { IsStore (state_of self.old) }
        ensures state { state_of self.new ≡ staying (λ c. not (c == client)) (state_of self.old) }
        ensures store { IsStore (state_of self.new) }
    {
        if !self.has_open(client) {
            return;
        }
        self.drop_own_files(client);
        self.opens.end_client(client);
    }

    /// The objects go that nothing but the client's opens keeps; the opens stand still.
    fn drop_own_files(&mut self, client: u64)
        requires { IsStore (state_of self.old) }
        ensures { state_of self.new ≡ with_opens (staying (λ c. not (c == client)) (state_of self.old)) (state_of self.old).opens }
    {
        self.kept();
        let mut after = 0;
        while let Some(open) = self.opens.next_of(client, after) {
            let (number, file) = (open.number, open.file);
            if self.is_first(number, file) {
                self.drop_own_file(client, file);
            }
            after = number;
        }
    }

    /// Whether the open of a number is the first of a file: what it keeps is judged once.
    fn is_first(&self, number: u64, file: u64) -> bool
        ensures { result ≡ option_map_or (λ o. o.number == number) (find (λ o. o.file == file) (state_of self.now).opens.opens) false }
    {
        match self.opens.first_on(file) {
            Some(open) => open.number == number,
            None => false,
        }
    }

    /// A file goes that nothing but the client's opens keeps.
    fn drop_own_file(&mut self, client: u64, file: u64)
        requires { IsRooted self.old.tree }
        ensures { state_of self.new ≡ without_own (state_of self.old) client file }
    {
        if self.is_used_without(client, file) {
            return;
        }
        self.tree.kept();
        self.tree.forget(file);
    }

    /// Whether it is the root, or has a row or an open that is not the client's.
    fn is_used_without(&self, client: u64, file: u64) -> bool
        ensures { result ≡ is_used (without_opens (state_of self.now) client) file }
    {
        file == Tree::ROOT || self.is_named(file) || self.is_open_without(client, file)
    }

    /// Whether an open of the file stands that is not the client's.
    fn is_open_without(&self, client: u64, file: u64) -> bool
        ensures { result ≡ is_open (without_opens (state_of self.now) client) file }
    {
        self.opens.has_other(file, client)
    }
}
