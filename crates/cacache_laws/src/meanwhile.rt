//! What a collection keeps while others write, on a function that does nothing.
ghost use Rattle.cacache_laws.specs.Meanwhile.{CollectionsKeep, ListingsName, PutsKeep, RemovalsMayCome};

/// What listings of the index and removals keep while other callers write, in every legal history.
///
/// A listing that answers no error names the entry of each key that led to it from the listing's beginning to its
/// answer. A key that leads to a content when the listing begins goes on leading to it, if each call spares the key and
/// no call since removes a content that the listing names. The content of a put that answered stays, if each call since
/// the put began spares it. No more can be had: in every history a caller may remove whatever content is there.
pub fn meanwhile_laws()
    ensures names { ListingsName }
    ensures keeps { CollectionsKeep }
    ensures puts { PutsKeep }
    ensures comes { RemovalsMayCome }
{}
