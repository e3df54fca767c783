//! Lists of signatures in canonical text, as nearly all are. The one before is kept: of the next one that has its shape the parameters alone are read, and of
//! the same text nothing.
ghost use Rattle.std.specs.Prelude.{◌≡◌, ◌++◌, true, Some, IfSome};
ghost use Rattle.std.specs.List.{AllByRecursion};
ghost use Rattle.structured_fields.specs.Canonical.{params_text, AreInRange};
ghost use Rattle.structured_fields.specs.Letters.{is_key};
ghost use Rattle.structured_fields.specs.Named.{IsDistinct};
ghost use Rattle.structured_fields.specs.PlainLists.{front_text, IsPlainItem, one_list};
ghost use Rattle.structured_fields.specs.Reading.{dictionary_of};
ghost use Rattle.message_signature.specs.BaseTemplates.{template_of};
ghost use Rattle.message_signature.specs.Demands.{covering_of};
ghost use Rattle.message_signature.specs.ListShapes.{IsShapeOf, IsKnownOf};

use crate::base_template::{BaseTemplate, template_of};
use crate::demands::{Covering, covering_of};
use bytes_and_lists::bytes::Bytes;
use std::alloc::Global;
use structured_fields::{InnerList, Items, Params, PlainFront, plain_front, plain_params};

// A list of a longer text, in bytes, isn't kept: a connection holds what is kept.
const LONGEST_INPUT: usize = 1_024;

/// What lists have in common that have the same label and the same covered components.
#[derive(Drop)]
pub(crate) struct ListShape {
    /// What their texts begin with: the label, `=`, and the components in parentheses.
    front: Bytes,
    /// The key under which they stand.
    label: Bytes,
    template: BaseTemplate,
    covering: Covering,
}

fn list_shape(alloc: Global, front: &[u8], label: &[u8], items: &Items) -> Option<Box<ListShape>>
    ensures texts { IfSome result (λ shape. (shape.value.front ≡ front.now) × (shape.value.label ≡ label.now)) }
    ensures template { IfSome result (λ shape. template_of items.now ≡ Some shape.value.template) }
    ensures covering { IfSome result (λ shape. shape.value.covering ≡ covering_of items.now) }
{
    let Ok(template) = template_of(alloc, items) else {
        return None;
    };
    let shape = ListShape {
        front: Bytes::from_slice(alloc, front).ok()?,
        label: Bytes::from_slice(alloc, label).ok()?,
        template,
        covering: covering_of(items),
    };
    Box::new(alloc, shape).ok()
}

#[tactic(auto, using(crate::proofs::ListShapes::shape_of_plain))]
fn shape_of(alloc: Global, front: &[u8], label: &[u8], items: &Items) -> Option<Box<ListShape>>
    requires front { front.now ≡ front_text label.now items.now }
    requires label { is_key label.now ≡ true }
    requires items { AllByRecursion IsPlainItem items.now }
    ensures front { IfSome result (λ shape. shape.value.front ≡ front.now) }
    ensures shape { IfSome result
        (λ shape. IsShapeOf shape.value.front shape.value.label shape.value.template shape.value.covering items.now) }
{
    let shape = list_shape(alloc, front, label, items)?;
    Some(shape)
}

/// What is known of a list.
#[derive(Clone, Copy)]
pub(crate) struct KnownParts<'a> {
    pub template: &'a BaseTemplate,
    /// The canonical text of the list.
    pub shown: &'a [u8],
    pub covering: Covering,
}

/// The one list of a dictionary in canonical text, with its shape.
#[derive(Drop)]
pub(crate) struct ShapedList {
    pub list: InnerList,
    shape: Box<ListShape>,
    // The text of the dictionary.
    text: Bytes,
    ghost is_shape: { IsShapeOf shape.value.front shape.value.label shape.value.template shape.value.covering list.items },
    ghost text_is: { text ≡ shape.value.front ++ params_text list.params },
    ghost reads: { dictionary_of text ≡ Some (one_list shape.value.label list.items list.params) },
}

#[tactic(auto, using(crate::proofs::ListShapes::shape_reads))]
fn shaped(items: Items, params: Params, shape: Box<ListShape>, text: Bytes) -> ShapedList
    requires shape { IsShapeOf shape.value.front shape.value.label shape.value.template shape.value.covering items }
    requires text { text ≡ shape.value.front ++ params_text params }
    requires range { AreInRange params }
    requires distinct { IsDistinct params }
    ensures { result.text ≡ text }
{
    ShapedList {
        list: InnerList { items, params },
        shape,
        text,
    }
}

fn replaced(text: Bytes, with: &[u8]) -> Option<Bytes>
    ensures { IfSome result (λ b. b ≡ with.now) }
{
    let mut out = text;
    out.clear();
    out.extend(with).ok()?;
    Some(out)
}

impl ShapedList {
    /// The key under which it stands.
    pub fn label(&self) -> &[u8]
        ensures { result.now ≡ self.now.shape.value.label }
    {
        self.shape.as_ref().label.as_slice()
    }

    /// What is known of it.
    #[tactic(auto, using(crate::proofs::ListShapes::text_behind))]
    pub fn known(&self) -> KnownParts<'_>
        ensures { IsKnownOf self.now.list result.template.now result.shown.now result.covering }
    {
        let shape = self.shape.as_ref();
        KnownParts {
            template: &shape.template,
            shown: &self.text.as_slice()[shape.label.len() + 1..],
            covering: shape.covering,
        }
    }

    // The parameters of the list of another text, where it has the same shape.
    fn params_in(&self, alloc: Global, input: &[u8]) -> Option<Params>
        ensures text { IfSome result (λ params. input.now ≡ self.now.shape.value.front ++ params_text params) }
        ensures range { IfSome result (λ params. AreInRange params × IsDistinct params) }
    {
        plain_params(
            alloc,
            input.strip_prefix(self.shape.as_ref().front.as_slice())?,
        )
    }

    // The list of a text, where it has the same shape.
    fn with_text(self, alloc: Global, input: &[u8]) -> Option<ShapedList>
        ensures { IfSome result (λ one. one.text ≡ input.now) }
    {
        if self.text.as_slice() == input {
            return Some(self);
        }
        let params = self.params_in(alloc, input)?;
        let ShapedList { list, shape, text } = self;
        let InnerList {
            items,
            params: before,
        } = list;
        drop(before);
        Some(shaped(items, params, shape, replaced(text, input)?))
    }
}

fn new_list(alloc: Global, input: &[u8]) -> Option<ShapedList>
    ensures { IfSome result (λ one. one.text ≡ input.now) }
{
    if input.len() > LONGEST_INPUT {
        return None;
    }
    let PlainFront { key, items, rest } = plain_front(alloc, input)?;
    let params = plain_params(alloc, rest)?;
    let front = &input[..input.len() - rest.len()];
    let shape = shape_of(alloc, front, key, &items)?;
    let text = Bytes::from_slice(alloc, input).ok()?;
    Some(shaped(items, params, shape, text))
}

/// The list of a text of `Signature-Input`, where it is canonical: of the shape that is known, where the text has it. None says nothing of the text: it may
/// have another form, be long, or memory ran out.
pub(crate) fn shaped_list(
    alloc: Global,
    known: Option<ShapedList>,
    input: &[u8],
) -> Option<ShapedList>
    ensures { IfSome result (λ one. one.text ≡ input.now) }
{
    if let Some(known) = known {
        if let Some(one) = known.with_text(alloc, input) {
            return Some(one);
        }
    }
    new_list(alloc, input)
}
