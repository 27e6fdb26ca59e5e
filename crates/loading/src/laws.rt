//! The law of loaded listings, stated in `specs/Statements.antt`. Calling it does nothing.
ghost use Rattle.loading.specs.Statements.{LinesAskForSets, ListingsAskForTheirNodes, NodesMakeTheDatabase, LoadedTextsListBack};

/// What is listed of a database asks for just its nodes, and these make it again; so does what is listed of the
/// database that a text leaves.
pub fn listings_load_back()
    ensures sets { LinesAskForSets }
    ensures nodes { ListingsAskForTheirNodes }
    ensures database { NodesMakeTheDatabase }
    ensures again { LoadedTextsListBack }
{}
