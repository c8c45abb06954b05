// What the types of a generator and of edits fix, stated by calls that do nothing.
ghost use Rattle.party_state.specs.Ranges.{IsGen};
ghost use Rattle.party_state.specs.Formed.{IsFormed, AreFormed};

use crate::edit::Edit;
use party_tables::{
    law_answer, law_exchange, law_ident, law_label, law_link, law_pair, law_record,
};
use x_gen::Gen;

pub(crate) fn law_generator(generator: &Gen)
    ensures { IsGen generator.now }
{
    law_pair(&generator.key);
    let _v = generator.v;
}

/// What the types of an edit fix.
pub(crate) fn law_edit(edit: &Edit)
    ensures { IsFormed edit.now }
{
    match edit {
        Edit::Begin { own, generator, .. } => {
            law_ident(own);
            law_generator(generator);
        }
        Edit::PutLink(link) => law_link(link),
        Edit::DropLink { peer, label, .. } => {
            law_ident(peer);
            law_label(label);
        }
        Edit::PutKey(key) => law_record(key),
        Edit::DropEnded => (),
        Edit::PutExchange(exchange) => law_exchange(exchange),
        Edit::DropExchange { peer } => {
            law_ident(peer);
        }
        Edit::PutAnswer(answer) => law_answer(answer),
        Edit::SetGen(v) => {
            let _v = *v;
        }
    }
}

/// The same of edits.
pub(crate) fn law_each_edit(edits: &[Edit])
    ensures { AreFormed edits.now }
{
    for edit in edits {
        law_edit(edit);
    }
}
