//! Laws of the client table, over its definitions alone (RFC 8881 section 2.4).

ghost use Rattle.nfs_clients.specs.Laws.{IdsAreGivenOnce, TablesAreInOrder};

/// A client id that was given and names no record names none ever after, whatever the table goes
/// through: ids are never used again (RFC 8881 section 2.4).
#[tactic(auto, using(crate::proofs::Once::given_once))]
pub fn ids_are_given_once()
    ensures { IdsAreGivenOnce }
{}

/// Each table that the calls reach is in rising order of its ids and has at most as many records as
/// it was made for, and each owner has at most one confirmed and one unconfirmed record.
pub fn tables_are_in_order()
    ensures { TablesAreInOrder }
{}
