//! Laws of texts and values. Each function does nothing; its contract is the laws of one kind of text.
ghost use Rattle.field_laws.specs.Texts.{HasOneValue, IsReadBy, HasRange, IsPrintedBy};
ghost use Rattle.structured_fields.specs.Grammar.{IsItemText, IsListText, IsDictionaryText};
ghost use Rattle.structured_fields.specs.Canonical.{item_text, list_text, dictionary_text, IsItemInRange, IsListInRange, IsDictionaryInRange};
ghost use Rattle.structured_fields.specs.Reading.{item_of, list_of, dictionary_of};

/// A text of an item has one value at most, which `item_of` gives, and which is in range. The canonical text of an item in range is a text of it, and reads as
/// it.
pub fn item_laws()
    ensures one { HasOneValue IsItemText }
    ensures read { IsReadBy IsItemText item_of }
    ensures range { HasRange IsItemText IsItemInRange }
    ensures printed { IsPrintedBy IsItemText IsItemInRange item_text item_of }
{}

/// The same of lists.
pub fn list_laws()
    ensures one { HasOneValue IsListText }
    ensures read { IsReadBy IsListText list_of }
    ensures range { HasRange IsListText IsListInRange }
    ensures printed { IsPrintedBy IsListText IsListInRange list_text list_of }
{}

/// The same of dictionaries.
pub fn dictionary_laws()
    ensures one { HasOneValue IsDictionaryText }
    ensures read { IsReadBy IsDictionaryText dictionary_of }
    ensures range { HasRange IsDictionaryText IsDictionaryInRange }
    ensures printed { IsPrintedBy IsDictionaryText IsDictionaryInRange dictionary_text dictionary_of }
{}
