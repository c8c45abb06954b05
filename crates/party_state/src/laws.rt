// What is known of verdicts and of parties, stated by calls that do nothing.
ghost use Rattle.std.specs.Prelude.{◌≡◌, ◌↔◌, ◌++◌, true, false, cond, Some, None, List, ℕ, bytes_eq};
ghost use Rattle.x_base.specs.Names.{IsIdent};
ghost use Rattle.x_base.specs.declared.party.Role.{Role as TheRole};
ghost use Rattle.x_base.specs.declared.verdict.Verdict.TheVariants.{Accept};
ghost use Rattle.x_gen.specs.declared.generator.Gen.{Gen as TheGen};
ghost use Rattle.party_state.specs.declared.edit.Edit.{Edit as TheEdit};
ghost use Rattle.party_state.specs.declared.edit.Edit.TheVariants.{PutLink, DropLink, PutKey, DropEnded, PutExchange, DropExchange, PutAnswer};
ghost use Rattle.party_tables.specs.declared.link.LinkKey.{LinkKey as TheLinkKey};
ghost use Rattle.party_tables.specs.declared.link.LinkRec.{LinkRec as TheLink};
ghost use Rattle.party_tables.specs.declared.key.RecordKey.{RecordKey as TheRecordKey};
ghost use Rattle.party_tables.specs.declared.key.KeyRec.{KeyRec as TheRecord};
ghost use Rattle.party_tables.specs.declared.exchange.Exchange.{Exchange as TheExchange};
ghost use Rattle.party_tables.specs.declared.answer.AnswerKey.{AnswerKey as TheAnswerKey};
ghost use Rattle.party_tables.specs.declared.answer.Answer.{Answer as TheAnswer};
ghost use Rattle.party_tables.specs.Keys.{same_link, same_record, same_answer, link_key, record_key, exchange_key, answer_key};
ghost use Rattle.party_state.specs.Ranges.{IsGen, AreInRange, IsParty};
ghost use Rattle.party_tables.specs.Statuses.{is_ended};
ghost use Rattle.party_state.specs.State.{Party, begun, apply, apply_edit, link_with, record_with, exchange_with, answer_with};
ghost use Rattle.party_state.specs.Verdicts.{Test, verdict_of, TestsHold, is_accept, all_refuse};

/// A verdict is Accept exactly where each test held.
#[tactic(auto, using(crate::proofs::Verdicts::held, crate::proofs::Verdicts::held_at_accept, crate::proofs::Verdicts::accepted))]
pub fn law_accept()
    ensures held { (ts : List Test) → all_refuse ts ≡ true → verdict_of ts ≡ Accept → TestsHold ts }
    ensures accepted { (ts : List Test) → TestsHold ts → verdict_of ts ≡ Accept }
    ensures tested { (ts : List Test) → all_refuse ts ≡ true → is_accept (verdict_of ts) ≡ true → TestsHold ts }
{}

/// A party that begins is in range, and stays so after edits that are.
#[tactic(auto, using(crate::proofs::Editing::party_new, crate::proofs::Editing::party_apply))]
pub fn law_party()
    ensures begins { (own : List ℕ) (role : TheRole) (g : TheGen) → IsIdent own → IsGen g → IsParty (begun own role g) }
    ensures stays { (es : List TheEdit) (p : Party) → AreInRange es → IsParty p → IsParty (apply es p) }
{}

/// Edits one after another.
#[tactic(auto, using(crate::proofs::Editing::apply_append))]
pub fn law_edits()
    ensures { (es fs : List TheEdit) (p : Party) → apply (es ++ fs) p ≡ apply fs (apply es p) }
{}

/// What a put leaves under each key.
pub fn law_put()
    ensures link { (k : TheLinkKey) (l : TheLink) (p : Party) → link_with k (apply_edit (PutLink l) p) ≡ cond (same_link k (link_key l)) (Some l) (link_with k p) }
    ensures key { (k : TheRecordKey) (r : TheRecord) (p : Party) → record_with k (apply_edit (PutKey r) p) ≡ cond (same_record k (record_key r)) (Some r) (record_with k p) }
    ensures exchange { (peer : List ℕ) (e : TheExchange) (p : Party) → exchange_with peer (apply_edit (PutExchange e) p) ≡ cond (bytes_eq peer (exchange_key e)) (Some e) (exchange_with peer p) }
    ensures answer { (k : TheAnswerKey) (a : TheAnswer) (p : Party) → answer_with k (apply_edit (PutAnswer a) p) ≡ cond (same_answer k (answer_key a)) (Some a) (answer_with k p) }
{}

/// What a drop leaves under each key.
pub fn law_drop()
    ensures link { (k j : TheLinkKey) (p : Party) → link_with k (apply_edit (DropLink j.peer j.label j.side) p) ≡ cond (same_link k j) None (link_with k p) }
    ensures exchange { (peer other : List ℕ) (p : Party) → exchange_with peer (apply_edit (DropExchange other) p) ≡ cond (bytes_eq peer other) None (exchange_with peer p) }
    ensures ended { (k : TheRecordKey) (r : TheRecord) (p : Party) → IsParty p →
        ((record_with k (apply_edit DropEnded p) ≡ Some r) ↔ ((record_with k p ≡ Some r) × (is_ended r.status ≡ false))) }
{}
