// What is found in a party's tables, and how many rows they have, stated by calls that do nothing.
ghost use Rattle.std.specs.Prelude.{◌≡◌, ◌↔◌, ◌+◌, ◌≤◌, cond, is_some, true, Some, None, List, ℕ, length};
ghost use Rattle.x_base.specs.declared.party.Side.{Side as TheSide};
ghost use Rattle.party_state.specs.declared.edit.Edit.TheVariants.{PutLink, DropLink, PutKey, DropEnded, PutExchange, DropExchange, PutAnswer};
ghost use Rattle.party_tables.specs.declared.link.LinkKey.{LinkKey as TheLinkKey};
ghost use Rattle.party_tables.specs.declared.link.LinkRec.{LinkRec as TheLink};
ghost use Rattle.party_tables.specs.declared.key.RecordKey.{RecordKey as TheRecordKey};
ghost use Rattle.party_tables.specs.declared.key.KeyRec.{KeyRec as TheRecord};
ghost use Rattle.party_tables.specs.declared.exchange.Exchange.{Exchange as TheExchange};
ghost use Rattle.party_tables.specs.declared.answer.AnswerKey.{AnswerKey as TheAnswerKey};
ghost use Rattle.party_tables.specs.declared.answer.Answer.{Answer as TheAnswer};
ghost use Rattle.party_tables.specs.Keys.{same_link, same_record, same_answer, link_key, record_key, exchange_key, answer_key};
ghost use Rattle.party_tables.specs.Ranges.{IsLink, IsRecord, IsExchange, IsCentreAnswer};
ghost use Rattle.party_state.specs.Ranges.{IsParty};
ghost use Rattle.party_state.specs.State.{Party, apply_edit, link_with, record_with, exchange_with, answer_with, first_link};

/// Keys are compared by what they hold.
pub fn law_same()
    ensures link { (a b : TheLinkKey) → (same_link a b ≡ true) ↔ (a ≡ b) }
    ensures key { (a b : TheRecordKey) → (same_record a b ≡ true) ↔ (a ≡ b) }
    ensures answer { (a b : TheAnswerKey) → (same_answer a b ≡ true) ↔ (a ≡ b) }
{}

/// What is found has the key under which it was looked for.
pub fn law_found()
    ensures link { (k : TheLinkKey) (l : TheLink) (p : Party) → link_with k p ≡ Some l → k ≡ link_key l }
    ensures key { (k : TheRecordKey) (r : TheRecord) (p : Party) → record_with k p ≡ Some r → k ≡ record_key r }
    ensures exchange { (peer : List ℕ) (e : TheExchange) (p : Party) → exchange_with peer p ≡ Some e → peer ≡ exchange_key e }
    ensures answer { (k : TheAnswerKey) (a : TheAnswer) (p : Party) → answer_with k p ≡ Some a → k ≡ answer_key a }
{}

/// What is found is in its range.
pub fn law_found_in_range()
    ensures link { (k : TheLinkKey) (l : TheLink) (p : Party) → IsParty p → link_with k p ≡ Some l → IsLink l }
    ensures key { (k : TheRecordKey) (r : TheRecord) (p : Party) → IsParty p → record_with k p ≡ Some r → IsRecord r }
    ensures exchange { (peer : List ℕ) (e : TheExchange) (p : Party) → IsParty p → exchange_with peer p ≡ Some e → IsExchange e }
    ensures answer { (k : TheAnswerKey) (a : TheAnswer) (p : Party) → IsParty p → answer_with k p ≡ Some a → IsCentreAnswer a }
{}

/// The first usable link is found under its key, too.
pub fn law_first_link()
    ensures { (peer : List ℕ) (side : TheSide) (l : TheLink) (p : Party) → IsParty p → first_link peer side p ≡ Some l → link_with (link_key l) p ≡ Some l }
{}

/// To put what stands, or to drop what doesn't, changes nothing.
pub fn law_stands()
    ensures link { (l : TheLink) (p : Party) → link_with (link_key l) p ≡ Some l → apply_edit (PutLink l) p ≡ p }
    ensures key { (r : TheRecord) (p : Party) → record_with (record_key r) p ≡ Some r → apply_edit (PutKey r) p ≡ p }
    ensures exchange { (e : TheExchange) (p : Party) → exchange_with (exchange_key e) p ≡ Some e → apply_edit (PutExchange e) p ≡ p }
    ensures answer { (a : TheAnswer) (p : Party) → answer_with (answer_key a) p ≡ Some a → apply_edit (PutAnswer a) p ≡ p }
    ensures no_link { (k : TheLinkKey) (p : Party) → link_with k p ≡ None → apply_edit (DropLink k.peer k.label k.side) p ≡ p }
    ensures no_exchange { (peer : List ℕ) (p : Party) → exchange_with peer p ≡ None → apply_edit (DropExchange peer) p ≡ p }
{}

/// A put of a new row makes one row more, and of one that stands none; a drop makes no row more.
pub fn law_counts()
    ensures link { (l : TheLink) (p : Party) → length ((apply_edit (PutLink l) p).links) ≡ length p.links + cond (is_some (link_with (link_key l) p)) 0 1 }
    ensures key { (r : TheRecord) (p : Party) → length ((apply_edit (PutKey r) p).keys) ≡ length p.keys + cond (is_some (record_with (record_key r) p)) 0 1 }
    ensures drop_link { (k : TheLinkKey) (p : Party) → length ((apply_edit (DropLink k.peer k.label k.side) p).links) ≤ length p.links }
    ensures drop_ended { (p : Party) → length ((apply_edit DropEnded p).keys) ≤ length p.keys }
{}
