//! The terms of a grant, as its row keeps them.
use kept_rights::KeptAsks;
use std::marker::Model;

/// What a grant is asked for. Contracts see the note that says so.
#[derive(Drop)]
pub struct KeptTerms {
    /// The grant's number.
    pub grant: u64,
    /// The tokens.
    pub asks: KeptAsks,
    /// One token was asked for outside an array.
    pub single: bool,
    /// An identifier of the user is asked for.
    pub subject: bool,
}

impl Model for KeptTerms {
    ghost use Rattle.gnap_model.specs.declared.notes.TermsNote.{TermsNote};

    ghost Value = { TermsNote };

    ghost view = { λ t. record { grant = t.grant; asks = t.asks; single = t.single; subject = t.subject } };
}
