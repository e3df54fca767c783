//! Items, inner lists, members, and the collections of them.
use crate::bare::Bare;
use crate::named::Named;
use bytes_and_lists::seq::Seq;

/// Parameters: bare items under distinct keys, in order (RFC 9651, section 3.1.2).
pub type Params = Named<Bare>;

/// Items one after another.
pub type Items = Seq<Item>;

/// A list: its members in order (RFC 9651, section 3.1).
pub type List = Seq<Member>;

/// A dictionary: members under distinct keys, in order (RFC 9651, section 3.2).
pub type Dictionary = Named<Member>;

/// An item: a bare item with its parameters (RFC 9651, section 3.3).
#[derive(Drop)]
pub struct Item {
    pub bare: Bare,
    pub params: Params,
}

/// An inner list: items in order, with parameters of the whole (RFC 9651, section 3.1.1).
#[derive(Drop)]
pub struct InnerList {
    pub items: Items,
    pub params: Params,
}

/// A member of a list or a dictionary.
#[derive(Drop)]
pub enum Member {
    Item(Item),
    Inner(InnerList),
}
