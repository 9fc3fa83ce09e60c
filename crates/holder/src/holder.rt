// A holder over a store.
use drafts::state::State;

// The store, and what the holder keeps in mind of it.
#[derive(Drop)]
pub struct Holder<S> {
    pub(crate) store: S,
    pub(crate) state: State,
}
