//! What follows of the definitions.

ghost use Rattle.image_audit.specs.Laws.{ReachedByPaths, ListingsAreTaken, ListingsAreOne};

/// What is reached from roots is what a path of pointers leads to from one of them.
pub fn reached_is_where_a_path_leads()
    /// promise: What is reached from roots is what a path of pointers leads to from one of them.
    ensures { ReachedByPaths }
{}

/// The lines of entries, one of each listed block by ascending block, are taken by a new certificate, none is refused,
/// and it has these entries then. A line spells one block's entry at most. So what a search finds, sent as lines, is
/// answered yes.
pub fn listings_are_taken()
    /// promise (with one): The lines of what is listed are taken by a new certificate, which has these entries then; a
    /// line spells one block's entry at most.
    ensures taken { ListingsAreTaken }
    ensures one { ListingsAreOne }
{}
