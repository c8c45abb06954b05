ghost use Rattle.std.specs.Prelude.{◌≡◌, [], nat_lt, ◌||◌, ◌&&◌, length, slice_index_or, option_map, is_some, is_none, find, if◌then◌else◌};
ghost use Rattle.std.specs.List.{filter, list_any};
ghost use Rattle.csm_grammar.specs.declared.tag.Tag.{Tag};
ghost use Rattle.csm_grammar.specs.declared.tag.Tag.TheVariants.{Mcl, Kd, Mac, Edc};
ghost use Rattle.csm_grammar.specs.Tags.{tag_place, same_tag};
ghost use Rattle.csm_grammar.specs.Classes.{forms, class_forms, required, times};
ghost use Rattle.csm_grammar.specs.FormSets.{forms_in, has_form};
ghost use Rattle.csm_grammar.specs.Values.{kind_of, value_of};
ghost use Rattle.csm_grammar.specs.Values.Kind.{OfKey};
ghost use Rattle.csm_read.specs.Denoting.{IsKeptValue, AreDenoted};
ghost use Rattle.csm_read.specs.Slotting.{slot_in, second_in, came, comes, Puts, Keeps, is_absent_by, absent_by, lacking_by, missing_by};

mod end;
mod faults;
mod messages;
mod values;

use csm_grammar::{Form, FormSet, Tag};

// where a second KD is kept, behind the places of all tags
const SECOND: usize = 27;

/// The fields before a token: the contents behind each tag and those of a second KD, the numbers that
/// they stand for, and the forms that have all the tags.
#[derive(Drop)]
pub struct Fields<'a> {
    slots: [Option<&'a [u8]>; 28],
    numbers: [u64; 28],
    left: FormSet,
    ghost sized: { length slots ≡ 28 },
    ghost as_many: { length numbers ≡ 28 },
    ghost denoted: { AreDenoted slots numbers },
}

impl<'a> Fields<'a> {
    /// No field came.
    pub fn new() -> Fields<'a>
        ensures { Keeps result.slots result.left.bits [] }
    {
        Fields {
            slots: [None; 28],
            numbers: [0; 28],
            left: FormSet::all(),
        }
    }

    /// The contents behind the tag.
    pub fn get(&self, tag: Tag) -> Option<&'a [u8]>
        ensures { option_map (λ x. x.now) result ≡ slot_in self.now.slots tag }
    {
        self.slots[tag.place()]
    }

    /// The number that is kept behind the tag.
    pub fn number(&self, tag: Tag) -> u64
        ensures { result ≡ slice_index_or self.now.numbers (tag_place tag) 0 }
    {
        self.numbers[tag.place()]
    }

    /// Whether the tag came.
    pub fn has(&self, tag: Tag) -> bool
        ensures { result ≡ came self.now.slots tag }
    {
        self.get(tag).is_some()
    }

    /// Whether KD came twice.
    pub fn has_second(&self) -> bool
        ensures { result ≡ is_some (second_in self.now.slots) }
    {
        self.slots[SECOND].is_some()
    }

    /// The number of the second KD.
    pub fn second_number(&self) -> u64
        ensures { result ≡ slice_index_or self.now.numbers 27 0 }
    {
        self.numbers[SECOND]
    }

    /// Whether the tag comes as a second KD: it is KD, and KD came.
    pub fn is_second(&self, tag: Tag) -> bool
        ensures { result ≡ (same_tag tag Kd && came self.now.slots Kd) }
    {
        tag.is(Tag::Kd) && self.has(Tag::Kd)
    }

    /// How often the tag came.
    fn times(&self, tag: Tag) -> u8
        ensures { result ≡ comes self.now.slots tag }
    {
        if !self.has(tag) {
            0
        } else if tag.is(Tag::Kd) && self.has_second() {
            2
        } else {
            1
        }
    }

    /// Whether MAC or EDC came.
    pub fn is_closed(&self) -> bool
        ensures { result ≡ (came self.now.slots Mac || came self.now.slots Edc) }
    {
        self.has(Tag::Mac) || self.has(Tag::Edc)
    }

    /// The forms that have the tag once more than it came, and all before it.
    pub fn left(&self, tag: Tag) -> FormSet
        ensures { forms_in result.bits ≡ filter (λ f. nat_lt (comes self.now.slots tag) (times f tag)) (forms_in self.now.left.bits) }
    {
        self.left.that_have(tag, self.times(tag))
    }

    /// Whether the tag did not come as often as the form must have it.
    fn lacks(&self, form: Form, tag: Tag) -> bool
        ensures { result ≡ is_absent_by self.now.slots form tag }
    {
        if form.has_twice(tag) {
            !self.has_second()
        } else {
            !self.has(tag)
        }
    }

    /// The first required tag of the form that is absent.
    fn absent(&self, form: Form) -> Option<Tag>
        ensures { result ≡ absent_by self.now.slots form }
    {
        form.required()
            .iter()
            .copied()
            .find(|tag| self.lacks(form, *tag))
    }

    /// Whether the form is among them and has all its required tags.
    pub fn is_whole(&self, left: FormSet, form: Form) -> bool
        ensures { result ≡ (has_form left.bits form && is_none (absent_by self.now.slots form)) }
    {
        left.has(form) && self.absent(form).is_none()
    }

    fn any_whole(&self, left: FormSet) -> bool
        ensures { result ≡ list_any (λ f. has_form left.bits f && is_none (absent_by self.now.slots f)) forms }
    {
        FormSet::FORMS.iter().any(|form| self.is_whole(left, *form))
    }

    /// Whether one of the forms has all its required tags.
    fn is_complete(&self, left: FormSet) -> bool
        ensures { result ≡ list_any (λ g. is_none (absent_by self.now.slots g)) (forms_in left.bits) }
    {
        self.any_whole(left)
    }

    /// The first required tag that the first of the forms lacks, where none has all.
    pub fn lacking(&self, left: FormSet) -> Option<Tag>
        ensures { result ≡ lacking_by self.now.slots (forms_in left.bits) }
    {
        if self.is_complete(left) {
            return None;
        }
        match left.first() {
            Some(form) => self.absent(form),
            None => None,
        }
    }

    /// The forms that are left behind the field.
    fn left_behind(&self, tag: Tag, contents: &[u8]) -> FormSet
        ensures { forms_in result.bits ≡ (if same_tag tag Mcl then class_forms contents.now else filter (λ f. nat_lt (comes self.now.slots tag) (times f tag)) (forms_in self.now.left.bits)) }
    {
        match tag {
            Tag::Mcl => FormSet::of_class(contents),
            _ => self.left(tag),
        }
    }

    /// The tag that is missing at the end: the first absent one of the first form that is left, or
    /// else that of its code.
    pub fn missing_at_end(&self) -> Tag
        ensures { result ≡ missing_by self.now.slots (find (has_form self.now.left.bits) forms) }
    {
        match self.left.first() {
            Some(form) => match self.absent(form) {
                Some(tag) => tag,
                None => form.code_tag(),
            },
            None => Tag::Mcl,
        }
    }

    /// Adds a field without a fault, and the number that its contents stand for.
    pub fn put(&mut self, tag: Tag, contents: &'a [u8], number: u64)
        requires { IsKeptValue (value_of (kind_of tag) contents.now) number }
        ensures contents { Puts self.old.slots self.new.slots tag contents.now }
        ensures forms { forms_in self.new.left.bits ≡ (if same_tag tag Mcl then class_forms contents.now else filter (λ f. nat_lt (comes self.old.slots tag) (times f tag)) (forms_in self.old.left.bits)) }
    {
        let left = self.left_behind(tag, contents);
        if self.is_second(tag) {
            self.put_second(contents, number);
        } else {
            self.put_first(tag, contents, number);
        }
        self.left = left;
    }

    /// Puts the contents behind the tag.
    fn put_first(&mut self, tag: Tag, contents: &'a [u8], number: u64)
        requires { IsKeptValue (value_of (kind_of tag) contents.now) number }
        ensures contents { (t : Tag) → slot_in self.new.slots t ≡ (if same_tag tag t then Some contents.now else slot_in self.old.slots t) }
        ensures second { second_in self.new.slots ≡ second_in self.old.slots }
        ensures forms { self.new.left ≡ self.old.left }
    {
        // without contents any number may stand behind the tag
        self.slots[tag.place()] = None;
        self.numbers[tag.place()] = number;
        self.slots[tag.place()] = Some(contents);
    }

    /// Puts the contents behind a second KD.
    fn put_second(&mut self, contents: &'a [u8], number: u64)
        requires { IsKeptValue (value_of OfKey contents.now) number }
        ensures contents { (t : Tag) → slot_in self.new.slots t ≡ slot_in self.old.slots t }
        ensures second { second_in self.new.slots ≡ Some contents.now }
        ensures forms { self.new.left ≡ self.old.left }
    {
        self.slots[SECOND] = None;
        self.numbers[SECOND] = number;
        self.slots[SECOND] = Some(contents);
    }
}
