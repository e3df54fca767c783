//! The signature base as far as the covered components tell it (RFC 9421, section 2.5), with places for their values and for the parameters.
ghost use Rattle.std.specs.Prelude.{◌≡◌, [], ◌++◌};
ghost use Rattle.std.specs.Option.{option_map};
ghost use Rattle.message_signature.specs.BaseTemplates.{line_template, line_templates, line_end, template_of, filled_line, filled_lines, filled};
ghost use Rattle.message_signature.specs.Faults.{GivesBase};

use crate::base::{PARAMS_LINE, is_named, name_of, others_behind, room_for, text_with_room};
use crate::components::{
    CoveredComponent, append_bytes, append_covered, component_named, with_both,
};
use crate::fault::BaseFault;
use bytes_and_lists::bytes::Bytes;
use bytes_and_lists::message::Message;
use bytes_and_lists::seq::Seq;
use std::alloc::Global;
use structured_fields::{Item, Items, append_item};

/// A line of a covered component up to its value.
#[derive(Drop)]
struct LineTemplate {
    /// The end of the line before, the name, and `: `.
    front: Bytes,
    component: CoveredComponent,
}

/// A signature base without the values of its components and the text of the list.
#[derive(Drop)]
pub(crate) struct BaseTemplate {
    lines: Seq<LineTemplate>,
    /// The end of the line before, and the line of the parameters up to their text.
    last: Bytes,
}

fn line_template(
    alloc: Global,
    before: &[u8],
    item: &Item,
    others: &[Item],
) -> Result<LineTemplate, BaseFault>
    ensures { GivesBase (λ line. line) result (line_template before.now item.now others.now) }
{
    let Some(name) = name_of(item) else {
        return Err(BaseFault::Unsupported);
    };
    if is_named(name.as_slice(), others) {
        return Err(BaseFault::Unsupported);
    }
    let component = component_named(alloc, name.as_slice())?;
    let front = Bytes::from_slice(alloc, before)?;
    let front = append_item(alloc, front, item)?;
    let front = append_bytes(front, b": ")?;
    Ok(LineTemplate { front, component })
}

fn line_templates(alloc: Global, items: &Items) -> Result<Seq<LineTemplate>, BaseFault>
    ensures { GivesBase (λ lines. lines) result (line_templates [] items.now) }
{
    let mut lines = Seq::new(alloc);
    let mut before: &[u8] = b"";
    for i in 0..items.len() {
        let line = line_template(alloc, before, items.at(i), others_behind(items, i))?;
        lines.push(line)?;
        before = b"\n";
    }
    Ok(lines)
}

fn line_end(items: &Items) -> &'static [u8]
    ensures { result.now ≡ line_end items.now }
{
    match items.as_slice() {
        [] => b"",
        [..] => b"\n",
    }
}

/// That of covered components.
///
/// Errors: Unsupported exactly where no message has a signature base under them: one is no String, has parameters, is named again, isn't lower case or is no
/// derived one though its name begins with `@`. OutOfMemory may come in place of any answer.
#[tactic(auto, unfolding(crate::specs::BaseTemplates::template_of))]
pub(crate) fn template_of(alloc: Global, items: &Items) -> Result<BaseTemplate, BaseFault>
    ensures { GivesBase (λ template. template) result (template_of items.now) }
{
    let lines = line_templates(alloc, items)?;
    let before = Bytes::from_slice(alloc, line_end(items))?;
    let last = append_bytes(before, PARAMS_LINE)?;
    Ok(BaseTemplate { lines, last })
}

fn append_filled(
    alloc: Global,
    text: Bytes,
    message: &Message,
    base: &Bytes,
    line: &LineTemplate,
) -> Result<Bytes, BaseFault>
    ensures { GivesBase (λ b. b) result (option_map (λ line. text ++ line) (filled_line message.now base.now line.now)) }
{
    let text = append_bytes(text, line.front.as_slice())?;
    append_covered(alloc, text, message, base, &line.component)
}

fn filled_lines(
    alloc: Global,
    message: &Message,
    base: &Bytes,
    lines: &Seq<LineTemplate>,
) -> Result<Bytes, BaseFault>
    ensures { GivesBase (λ b. b) result (filled_lines message.now base.now lines.now) }
{
    let empty = text_with_room(alloc, room_for(message, base))?;
    let mut text = empty;
    for i in 0..lines.len() {
        text = append_filled(alloc, text, message, base, lines.at(i))?;
    }
    Ok(text)
}

/// The signature base of a message to the server with this base, under the list of which `shown` is the canonical text. Unsupported exactly where a covered
/// component isn't there.
///
/// Errors: OutOfMemory may come in place of any answer.
#[tactic(auto, unfolding(crate::specs::BaseTemplates::filled))]
pub(crate) fn filled(
    alloc: Global,
    message: &Message,
    base: &Bytes,
    template: &BaseTemplate,
    shown: &[u8],
) -> Result<Bytes, BaseFault>
    ensures { GivesBase (λ b. b) result (filled message.now base.now template.now shown.now) }
{
    let lines = filled_lines(alloc, message, base, &template.lines)?;
    Ok(with_both(lines, template.last.as_slice(), shown)?)
}
