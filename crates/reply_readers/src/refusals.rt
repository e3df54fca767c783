//! Errors in replies (RFC 9635, section 3.6).
ghost use Rattle.std.specs.Prelude.{◌≡◌};
ghost use Rattle.std.specs.List.{find};
ghost use Rattle.serde_json.specs.View.{view};
ghost use Rattle.json_objects.specs.Reading.{Gives};
ghost use Rattle.reply_readers.specs.declared.members.FormFault.TheVariants.{OutOfMemory};
ghost use Rattle.reply_readers.specs.Members.{Tells};
ghost use Rattle.reply_readers.specs.Grants.{error_codes, is_code, code_named, code_in, refused_of};

use crate::grant_reply::GrantReply;
use crate::members::{FormFault, needed_str};
use gnap_model::objects::ErrorCode;
use json_objects::member;
use serde_json::Value;

const ERROR_CODES: [ErrorCode; 15] = [
    ErrorCode::InvalidRequest,
    ErrorCode::InvalidClient,
    ErrorCode::InvalidInteraction,
    ErrorCode::InvalidFlag,
    ErrorCode::InvalidRotation,
    ErrorCode::KeyRotationNotSupported,
    ErrorCode::InvalidContinuation,
    ErrorCode::UserDenied,
    ErrorCode::RequestDenied,
    ErrorCode::UnknownUser,
    ErrorCode::UnknownInteraction,
    ErrorCode::TooFast,
    ErrorCode::TooManyAttempts,
    ErrorCode::InvalidResourceServer,
    ErrorCode::InvalidAccess,
];

fn is_code(text: &[u8], code: ErrorCode) -> bool
    ensures { result ≡ is_code text.now code }
{
    text == code.text().as_bytes()
}

fn named_among(codes: &[ErrorCode], text: &[u8]) -> Option<ErrorCode>
    ensures { result ≡ find (is_code text.now) codes.now }
{
    for code in codes {
        if is_code(text, *code) {
            return Some(*code);
        }
    }
    None
}

#[tactic(auto, unfolding(crate::specs::Grants::code_named))]
fn code_named(text: &[u8]) -> Option<ErrorCode>
    ensures { Tells (λ c. c) result (code_named text.now) }
{
    named_among(&ERROR_CODES, text)
}

fn code_in(value: &Value) -> Option<ErrorCode>
    ensures { Tells (λ c. c) result (code_in (view value.now)) }
{
    let error = member(value, "error")?;
    code_named(needed_str(error, "code")?.as_bytes())
}

#[tactic(auto, unfolding(crate::specs::Grants::refused_of))]
pub(crate) fn refused_of(status: u16, value: &Value) -> Result<GrantReply, FormFault>
    ensures { Gives OutOfMemory (λ r. r) result (refused_of status (view value.now)) }
{
    let Some(code) = code_in(value) else {
        return Err(FormFault::NotOfForm);
    };
    if status == code.status() {
        Ok(GrantReply::Refused { code })
    } else {
        Err(FormFault::NotOfForm)
    }
}
