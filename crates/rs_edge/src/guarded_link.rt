//! What the turns of a resource server are taken at.

/// A link to the authorization server, and who guards requests over it.
#[derive(Drop)]
pub(crate) struct GuardedLink<'a, L, K> {
    pub(crate) link: &'a mut L,
    pub(crate) guard: &'a mut K,
}
