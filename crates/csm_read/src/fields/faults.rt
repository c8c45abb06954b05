// The faults of a token, in their order, behind the fields before it.
ghost use Rattle.std.specs.Prelude.{◌≡◌, ◌≤◌, ◌+◌, ◌∷◌, ◌++◌, ◌||◌, ◌&&◌, ◌==◌, not, nat_le, List, length, option_to_list, MatchResult, ℕ, if◌then◌else◌};
ghost use Rattle.std.specs.List.{list_all, list_any};
ghost use Rattle.csm_grammar.specs.declared.tag.Tag.TheVariants.{Mcl};
ghost use Rattle.csm_grammar.specs.Tags.{tag_name, same_tag, is_closing};
ghost use Rattle.csm_grammar.specs.Spelling.{Field, tags_in, message_limit};
ghost use Rattle.csm_read.specs.Faults.{or_else, contents_fault, is_ksm, is_repeated, is_tag_byte, forms_left, lacking, field_of, fault_of, fault_of_field};
ghost use Rattle.csm_read.specs.Slotting.{Keeps};

use crate::fields::Fields;
use crate::numbers::denoted;
use crate::units::parts;
use csm_grammar::{ReadRefusal, Tag};

/// Whether the bytes are 1 to 4 of a tag.
fn is_tag_name(name: &[u8]) -> bool
    ensures { result ≡ ((nat_le 1 (length name.now) && nat_le (length name.now) 4) && list_all is_tag_byte name.now) }
{
    1 <= name.len() && name.len() <= 4 && are_tag_bytes(name)
}

fn are_tag_bytes(name: &[u8]) -> bool
    ensures { result ≡ list_all is_tag_byte name.now }
{
    name.iter().all(|byte| is_tag_byte(*byte))
}

fn is_tag_byte(byte: u8) -> bool
    ensures { result ≡ is_tag_byte byte }
{
    matches!(byte, b'A'..=b'Z' | b'0'..=b'9' | b'*')
}

impl Fields<'_> {
    /// Whether another tag than MCL comes first.
    fn begins_wrongly(&self, tag: Tag) -> bool
        ensures { (fs : List Field) → Keeps self.now.slots self.now.left.bits fs → result ≡ ((length fs == 0) && not (same_tag tag Mcl)) }
    {
        !self.has(Tag::Mcl) && !tag.is(Tag::Mcl)
    }

    /// Whether the class is KSM.
    fn is_ksm(&self) -> bool
        ensures { (fs : List Field) → Keeps self.now.slots self.now.left.bits fs → result ≡ is_ksm fs }
    {
        match self.get(Tag::Mcl) {
            Some(class) => class == b"KSM".as_slice(),
            None => false,
        }
    }

    /// Whether the tag came, and KD in a KSM twice.
    fn is_repeated(&self, tag: Tag) -> bool
        ensures { (fs : List Field) → Keeps self.now.slots self.now.left.bits fs → result ≡ is_repeated fs tag }
    {
        if self.is_second(tag) && self.is_ksm() {
            self.has_second()
        } else {
            self.has(tag)
        }
    }

    /// Whether a code came, or no form has the tag and all before it.
    fn is_unwanted(&self, tag: Tag) -> bool
        ensures { (fs : List Field) → Keeps self.now.slots self.now.left.bits fs → result ≡ (list_any is_closing (tags_in fs) || (length (forms_left fs (tag ∷ tags_in fs)) == 0)) }
    {
        self.is_closed() || self.left(tag).is_empty()
    }

    /// What a code comes too early for: the first absent tag of the first form that is left.
    fn missing(&self, tag: Tag) -> Option<Tag>
        ensures { (fs : List Field) → Keeps self.now.slots self.now.left.bits fs → result ≡ (if is_closing tag then lacking (forms_left fs (tag ∷ tags_in fs)) (tags_in fs) else None) }
    {
        if tag.is_closing() {
            self.lacking(self.left(tag))
        } else {
            None
        }
    }

    /// The fault that the tag of a field has at the place, whatever its contents are.
    fn tag_fault(&self, place: usize, tag: Tag) -> Option<ReadRefusal>
        requires { place ≤ message_limit }
        ensures { (fs : List Field) (contents : List ℕ) → Keeps self.now.slots self.now.left.bits fs → fault_of_field fs place (record { tag = tag; contents = contents }) ≡ or_else result (contents_fault tag place contents) }
    {
        let at = place as u64;
        if tag.is_unsupported() {
            return Some(ReadRefusal::Unsupported(tag, at));
        }
        if self.begins_wrongly(tag) {
            return Some(ReadRefusal::Missing(Tag::Mcl, at));
        }
        if self.is_repeated(tag) {
            return Some(ReadRefusal::Repeated(tag, at));
        }
        if self.is_unwanted(tag) {
            return Some(ReadRefusal::Unwanted(tag, at));
        }
        if let Some(missing) = self.missing(tag) {
            return Some(ReadRefusal::Missing(missing, at));
        }
        None
    }
}

/// The fault of contents that stand for nothing, behind a tag at the place.
fn bad_contents(tag: Tag, place: usize) -> ReadRefusal
    requires { place ≤ message_limit }
    ensures { result ≡ ReadRefusal.BadContents tag (place + (length (tag_name tag) + 1)) }
{
    let slash = tag.name().len() as u64;
    ReadRefusal::BadContents(tag, place as u64 + (slash + 1))
}

fn unnamed(name: &[u8], place: u64) -> ReadRefusal
    ensures { result ≡ (if (nat_le 1 (length name.now) && nat_le (length name.now) 4) && list_all is_tag_byte name.now then ReadRefusal.UnknownTag place else ReadRefusal.BadTag place) }
{
    if is_tag_name(name) {
        ReadRefusal::UnknownTag(place)
    } else {
        ReadRefusal::BadTag(place)
    }
}

impl<'a> Fields<'a> {
    /// Takes a token that stands at the place behind those before it, where it has no fault.
    pub fn take(&mut self, place: usize, token: &'a [u8]) -> Result<(), ReadRefusal>
        requires { place ≤ message_limit }
        ensures { (fs : List Field) → Keeps self.old.slots self.old.left.bits fs → MatchResult result
            (λ _. (fault_of fs (record { place = place; text = token.now }) ≡ None) × Keeps self.new.slots self.new.left.bits (fs ++ option_to_list (field_of (record { place = place; text = token.now }))))
            (λ r. fault_of fs (record { place = place; text = token.now }) ≡ Some r) }
    {
        let Some((name, contents)) = parts(token) else {
            return Err(ReadRefusal::BadTag(place as u64));
        };
        let Some(tag) = Tag::of(name) else {
            return Err(unnamed(name, place as u64));
        };
        if let Some(fault) = self.tag_fault(place, tag) {
            return Err(fault);
        }
        match denoted(tag, contents) {
            Some(number) => {
                self.put(tag, contents, number);
                Ok(())
            }
            None => Err(bad_contents(tag, place)),
        }
    }
}
